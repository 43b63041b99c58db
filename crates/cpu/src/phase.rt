// The two parts of a step in which a trouble can come.
#[derive(Clone, Copy, Debug, PartialEq, Eq)]
pub enum Phase {
    Fetching,
    Executing,
}
