// Laws of the machine above its definitions, each on the contract of a call.
#![tactic(auto)]

mod theorems;

pub use theorems::{exception_laws, register_law, signed_ends, worked_examples};
