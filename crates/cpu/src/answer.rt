// What a step answers.
use crate::exception::Exception;

/// Why a step stops.
#[derive(Clone, Copy, Debug, PartialEq, Eq)]
pub enum Stop {
    Reserved = 8,
    NotConfigured = 9,
    Misaligned = 10,
}

#[derive(Clone, Copy, Debug, PartialEq, Eq)]
pub enum Answer {
    /// The instruction of this word is done.
    Done(u32),
    Taken(Exception),
    /// Nothing has changed; the PC is where it was.
    Stopped { stop: Stop, pc: u32 },
}
