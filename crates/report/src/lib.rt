// The text that a trace prints: numbers, lines and the whole.
#![tactic(auto)]

mod line;
mod number;
mod outcome;
mod whole;

pub use line::{StepLine, end_line, header_line, refusal_line};
pub use number::decimal;
pub use outcome::Outcome;
pub use whole::trace;
