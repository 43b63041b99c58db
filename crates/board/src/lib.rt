// The board: a processor on a bus, and the calls that a bench makes of it.
#![tactic(auto)]

pub mod access;
pub mod calls;
pub mod execute;
mod halt;
pub mod load;
pub mod machine;
pub mod refusals;
pub mod running;
pub mod step;

pub use machine::Board;
