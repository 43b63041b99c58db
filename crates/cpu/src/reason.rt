// What keeps an instruction from being done.
use bus::Fault;

#[derive(Clone, Copy, Debug, PartialEq, Eq)]
pub enum Trouble {
    Bus(Fault),
    Divisor,
    Break,
    Scall,
}
