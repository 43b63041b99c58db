// Runs a workload on the programs' board for a number of steps, the last number among its arguments, and prints what was done.
#![tactic(auto)]

use board::Board;
use bus::Bus;
use layout::{FIRST_REGISTERS, board_bus, board_config};
use std::{env, fs, io};

// The registers in which the workload counts its rounds and its interrupts.
const ROUNDS: u32 = 19;

const INTERRUPTS: u32 = 22;

fn main(rt: HostRuntime) -> io::Result<()> {
    let budget = env::args(&rt)?
        .filter_map(|word| word.parse().ok())
        .last()
        .unwrap_or(0);
    let image = fs::read(&rt, "workload.image")?;
    let mut board = Board::power(board_config(), FIRST_REGISTERS, board_bus(rt.alloc())?);
    if let Err(refusal) = board.load(image.as_slice()) {
        let place = refusal.place;
        return println!(rt; "refused at {place}");
    }
    let (done, taken, ending) = board.run(budget);
    let rounds = board.show(ROUNDS).unwrap_or(0);
    let interrupts = board.show(INTERRUPTS).unwrap_or(0);
    println!(rt;
        "done {done}, taken {taken}, ending {ending}; rounds {rounds}, interrupts {interrupts}"
    )
}
