// What a line of an image can be.
use crate::bytes::Bytes;

// Bytes for memory, from `address` on.
#[derive(Clone, Copy)]
pub struct DataLine {
    pub address: u32,
    pub bytes: Bytes,
}

// A data line, or an end line with its count.
#[derive(Clone, Copy)]
pub enum Line {
    Data(DataLine),
    End(u32),
}
