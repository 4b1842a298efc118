use codes::Value;

// A record: a value for each column of a plan, and the bytes in which the texts among them lie.
// The bytes are lent beside the values, which are plain numbers: no memory is asked for below the program.
#[derive(Clone, Copy)]
pub struct Record<'a> {
    pub values: &'a [Value],
    pub texts: &'a [u8],
}
