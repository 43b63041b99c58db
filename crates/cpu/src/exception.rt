// The exceptions that a step can take, each with what it names.
use bus::Fault;

#[derive(Clone, Copy, Debug, PartialEq, Eq)]
pub enum Exception {
    /// The breakpoint register that matched, or none for a break instruction.
    Breakpoint(Option<u8>),
    FetchFault(Fault),
    DataFault(Fault),
    DivideByZero,
    /// The lowest line both pending and enabled.
    Interrupt(u8),
    SystemCall,
}
