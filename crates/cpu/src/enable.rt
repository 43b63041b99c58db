// The three bits of the CSR IE.
/// `ie` lets interrupts in, `eie` is what an exception saved of it and `bie` what a breakpoint saved.
#[derive(Clone, Copy, Debug, PartialEq, Eq)]
pub struct Enable {
    pub ie: bool,
    pub eie: bool,
    pub bie: bool,
}
