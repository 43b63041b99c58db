// What the program `trace` does with an image: the board, its steps, and the text.
#![tactic(auto)]

mod loading;
mod refusal;
mod stepping;
mod whole;

pub use refusal::LONGEST;
pub use stepping::steps;
pub use whole::{trace_image, trace_on};
