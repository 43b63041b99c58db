// Scripts of calls, and the promise about them.
#![tactic(auto)]

mod call;
mod performing;
mod playing;

pub use call::{Call, Reply};
pub use performing::perform;
pub use playing::play;
