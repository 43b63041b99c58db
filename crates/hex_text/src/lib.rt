// Upper-case hexadecimal text of a fixed count of digits, written and read.
#![tactic(auto)]

mod read;
mod write;

pub use read::{byte, is_digit, word};
pub use write::hexadecimal;
