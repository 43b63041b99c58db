// The image format: its lines, and what each of them says.
#![tactic(auto)]

mod bytes;
mod checking;
mod cut;
mod line;
mod lines;
mod read;
mod refusal;

pub use bytes::Bytes;
pub use checking::check;
pub use cut::line_at;
pub use line::{DataLine, Line};
pub use lines::Lines;
pub use read::read_line;
pub use refusal::{Cause, Refusal};
