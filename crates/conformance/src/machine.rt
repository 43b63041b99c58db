// Runs a case on a fresh board, by a script of calls.
ghost use Rattle.std.specs.Prelude.{◌≡◌};
ghost use Rattle.cpu.specs.Config.{configuration};
ghost use Rattle.conformance.specs.Ending.{counted};

use crate::case::{Case, DEBUG_BASE, MEMORY, ORIGIN, SHOWN};
use anyhow::bail;
use cpu::{Config, vet};
use layout::board_bus;
use script::{Call, Reply, play};
use std::alloc::{AllocError, Global};

// How many bytes a line of an image has here.
const WIDTH: usize = 32;

// How a run went, by the numbers that a run answers: how many steps were done and taken, and what it ended with, 0 or the number of the stop.
#[derive(Clone, Copy)]
pub(crate) struct Course {
    pub(crate) done: u32,
    pub(crate) taken: u32,
    pub(crate) ending: u32,
}

impl Course {
    // How many steps were made, counted as CC counts; a stop is none.
    pub(crate) fn made(self) -> u32
        ensures value { result ≡ counted self.done self.taken }
    {
        self.done.wrapping_add(self.taken)
    }
}

// What a run answered, and what `show` and `look` told after it, in the order of their indices and addresses.
#[derive(Drop)]
pub(crate) struct Outcome {
    pub(crate) course: Course,
    pub(crate) shown: Vec<u32>,
    pub(crate) memory: Vec<u8>,
}

// The configuration of `trace`, but for the first EBA and with it the first PC. By itself: a function over the EBA would have to ask that its low byte is 0.
fn config() -> Config
    ensures value { result ≡ configuration 0x00101137 0x00000400 0x00000800 }
{
    vet(0x0010_1137, ORIGIN, DEBUG_BASE).unwrap()
}

// Writes the line of an image that puts bytes to an address.
fn write_line(image: &mut String, address: usize, bytes: &[u8]) -> Result<(), AllocError> {
    write!(image, "M,{address:08X},")?;
    for byte in bytes {
        write!(image, "{byte:02X}")?;
    }
    writeln!(image)
}

// The image that makes memory like this. It has no lines of zeros: memory is zero first.
fn image_of(heap: Global, memory: &[u8; MEMORY]) -> Result<String, AllocError> {
    let lines: Vec<(usize, &[u8])> = (0..MEMORY)
        .step_by(WIDTH)
        .zip(memory.chunks(WIDTH))
        .filter(|(_, bytes)| bytes.iter().any(|byte| *byte != 0))
        .collect(heap)?;
    let mut image = String::new(heap);
    for (address, bytes) in &lines {
        write_line(&mut image, *address, bytes)?;
    }
    let count = lines.len();
    writeln!(image, "E,{count:08X}")?;
    Ok(image)
}

// Load, run, show everything, and look at every byte.
fn calls_of(heap: Global, image: &[u8], steps: u32) -> Result<Vec<Call<&[u8]>>, AllocError> {
    let mut calls = vec![in heap; Call::Load(image), Call::Run(steps)]?;
    // By hand: the check covers no `map` by a function whose result has a lifetime that no argument names.
    for index in 0..SHOWN as u32 {
        calls.push(Call::Show(index))?;
    }
    for address in 0..MEMORY as u32 {
        calls.push(Call::Look(address))?;
    }
    Ok(calls)
}

// What the replies to those calls told.
fn outcome_of(heap: Global, replies: &[Reply]) -> anyhow::Result<Outcome> {
    let [
        Reply::Load(Ok(_)),
        Reply::Run {
            done,
            taken,
            ending,
        },
        told @ ..,
    ] = replies
    else {
        bail!("the board refuses a call");
    };
    let mut outcome = Outcome {
        course: Course {
            done: *done,
            taken: *taken,
            ending: *ending,
        },
        shown: Vec::new(heap),
        memory: Vec::new(heap),
    };
    for reply in told {
        match *reply {
            Reply::Show(Ok(value)) => outcome.shown.push(value)?,
            Reply::Look(Ok(byte)) => outcome.memory.push(byte)?,
            _ => bail!("the board refuses a call"),
        }
    }
    Ok(outcome)
}

pub(crate) fn run_case(heap: Global, case: &Case<'_>) -> anyhow::Result<Outcome> {
    let image = image_of(heap, &case.start.memory)?;
    let calls = calls_of(heap, image.as_bytes(), case.steps)?;
    let registers = case.start.registers();
    let (replies, _board) = play(heap, config(), registers, board_bus(heap)?, &calls)?;
    outcome_of(heap, &replies)
}
