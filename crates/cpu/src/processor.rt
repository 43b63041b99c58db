// The state of a processor.
use crate::config::Config;
use crate::enable::Enable;

/// The control and status registers that hold something.
#[derive(Clone, Copy)]
pub struct Status {
    pub(crate) enable: Enable,
    pub(crate) im: u32,
    pub(crate) ip: u32,
    pub(crate) eba: u32,
    pub(crate) deba: u32,
    /// bit 1 of DC: every exception goes by DEBA
    pub(crate) remap: bool,
    pub(crate) cc: u32,
    pub(crate) breakpoints: [u32; 4],
}

#[derive(Clone, Copy)]
pub struct Processor {
    pub(crate) config: Config,
    pub(crate) registers: [u32; 32],
    pub(crate) pc: u32,
    pub(crate) status: Status,
    /// the lines from outside the bus
    pub(crate) outside: u32,
}
