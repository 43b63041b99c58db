// Why `lines` and `show` turn a call down.
/// A line is set that the processor does not have.
#[derive(Clone, Copy, Debug, PartialEq, Eq)]
pub struct LinesRefused;

/// There is nothing to show at the index.
#[derive(Clone, Copy, Debug, PartialEq, Eq)]
pub struct ShowRefused;
