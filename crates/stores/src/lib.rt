// Page stores: pages of one length by number, in an image of bytes or behind a seal over any other store.
#![tactic(auto)]

mod fault;
mod front;
mod image;
mod image_area;
mod kept;
mod page_data;
mod seal;
mod shape;
mod store;
mod sums;

pub use fault::StoreFault;
pub use image_area::Image;
pub use kept::write_and_read;
pub use seal::Seal;
pub use store::PageStore;
