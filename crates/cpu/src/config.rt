// A configuration that the emulator runs, and why others are turned down.
/// The CFG word and the reset values of the two exception bases, as `vet` has let them through.
#[derive(Clone, Copy, Debug, PartialEq, Eq)]
pub struct Config {
    pub(crate) cfg: u32,
    pub(crate) eba: u32,
    pub(crate) deba: u32,
    /// the bits of the configured interrupt lines
    pub(crate) mask: u32,
}

#[derive(Clone, Copy, Debug, PartialEq, Eq)]
pub enum ConfigRefusal {
    Unsupported = 1,
    TooMany = 2,
    BreakpointsWithoutDebug = 3,
    BaseUnaligned = 4,
}
