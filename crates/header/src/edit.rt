ghost use Rattle.std.specs.Prelude.{◌≡◌};
ghost use Rattle.header.specs.Editing.{with_edit, EditSet};

// Opens or ends an edit in the bytes of a header page: only that bit changes.
#[tactic(auto, using(crate::proofs::Edits::edit_sets, crate::proofs::Edits::edit_none))]
pub fn set_edit(page: &mut [u8], is_open: bool)
    ensures bit { page.new ≡ with_edit is_open page.old }
    ensures header { EditSet is_open page.old page.new }
{
    if page.len() > 1 {
        page[1] = page[1] / 2 * 2 + u8::from(is_open);
    }
}
