// A value that is not as the simulator says, and its text.
use crate::case::REGISTERS;
use std::fmt;

#[derive(Clone, Copy)]
pub(crate) enum Difference {
    Ending {
        expected: u32,
        found: u32,
    },
    Steps {
        expected: u32,
        found: u32,
    },
    Register {
        index: usize,
        expected: u32,
        found: u32,
    },
    Byte {
        address: usize,
        expected: u8,
        found: u8,
    },
}

// What `show` has from index 32 on.
const SPECIAL: [&str; 12] = [
    "PC", "IE", "IM", "IP", "EBA", "DEBA", "DC", "CC", "BP0", "BP1", "BP2", "BP3",
];

// The name of a register that has no number.
fn special_name(index: usize) -> &'static str {
    match index.checked_sub(REGISTERS) {
        Some(at) if at < SPECIAL.len() => SPECIAL[at],
        _ => "an index without a register",
    }
}

impl fmt::Display for Difference {
    fn fmt<W: fmt::Write>(&self, f: &mut fmt::Formatter<W>) -> fmt::Result {
        match *self {
            Difference::Ending { expected, found } => {
                write!(f, "the run ends with {found}, expected {expected}")
            }
            Difference::Steps { expected, found } => {
                write!(f, "{found} steps are made, expected {expected}")
            }
            Difference::Register {
                index,
                expected,
                found,
            } if index < REGISTERS => {
                write!(f, "r{index} is {found:08X}, expected {expected:08X}")
            }
            Difference::Register {
                index,
                expected,
                found,
            } => {
                let name = special_name(index);
                write!(f, "{name} is {found:08X}, expected {expected:08X}")
            }
            Difference::Byte {
                address,
                expected,
                found,
            } => {
                write!(
                    f,
                    "the byte at {address:08X} is {found:02X}, expected {expected:02X}"
                )
            }
        }
    }
}
