// The board that the programs run on: its bus, and its configuration.
#![tactic(auto)]

mod bus_of_board;
mod config;

pub use bus_of_board::{BoardBus, board_bus};
pub use config::{FIRST_REGISTERS, board_config};
