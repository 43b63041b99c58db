// The bus of an LM32 board: what every bus means, and the makes of bus.
#![tactic(auto)]

mod access;
mod block;
mod cache;
mod fault;
mod fork;
mod interface;
mod kind;
mod lanes;
mod line;
mod memory;
mod number;
mod port;
mod region;
mod size;
mod timer;

pub use cache::Cache;
pub use fault::{Cause, Fault, Home, Layer};
pub use fork::Fork;
pub use interface::Bus;
pub use kind::Kind;
pub use memory::{Memory, Ram, Rom};
pub use port::Port;
pub use size::Size;
pub use timer::Timer;
