// The control and status registers by name.
#[derive(Clone, Copy, Debug, PartialEq, Eq)]
pub enum Csr {
    Ie,
    Im,
    Ip,
    Cc,
    Cfg,
    Eba,
    Dc,
    Deba,
    /// One of the four breakpoint registers.
    Breakpoint(u8),
    /// Reads as 0, and keeps nothing: a register like the others, and no `None`.
    Other,
}
