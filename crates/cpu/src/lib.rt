// The LM32 processor: its configuration, its registers, and what instructions and exceptions do to them.
#![tactic(auto)]

pub mod answer;
pub mod config;
pub mod configured;
pub mod csr;
pub mod csr_access;
pub mod enable;
pub mod entry;
pub mod exception;
mod field;
pub mod flow;
pub mod pending;
pub mod phase;
pub mod processor;
pub mod reason;
pub mod refusal;
pub mod show;
pub mod state;
pub mod trouble;
mod unit;
pub mod vetting;

pub use answer::{Answer, Stop};
pub use config::{Config, ConfigRefusal};
pub use exception::Exception;
pub use phase::Phase;
pub use processor::Processor;
pub use reason::Trouble;
pub use vetting::vet;
