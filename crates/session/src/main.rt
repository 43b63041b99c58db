// Plays a script of calls on the programs' board: reads it from standard input, one call a line, and prints a line for each reply.
#![tactic(auto)]

mod loading;
mod reading;
mod refusal;
mod replies;

use layout::{FIRST_REGISTERS, board_bus, board_config};
use loading::{lend, try_map_image};
use reading::read_call;
use refusal::LineRefused;
use replies::Told;
use script::{Call, Reply, play};
use std::fs;
use std::io::Read;

// The call of a line, with the bytes of the image that it loads.
fn read_line<'a>(rt: &HostRuntime, line: &'a str) -> Result<Call<Vec<u8>>, LineRefused<'a>> {
    let call = read_call(line).ok_or(LineRefused::NoCall(line))?;
    try_map_image(call, |name| {
        fs::read(rt, name).map_err(|_| LineRefused::NoFile(name))
    })
}

fn play_text(rt: &HostRuntime, text: &str) -> anyhow::Result<()> {
    let heap = rt.alloc();
    let mut script = Vec::new(heap);
    for line in text.lines() {
        script.push(read_line(rt, line)?)?;
    }
    let calls: Vec<Call<&[u8]>> = script.iter().map(lend).collect(heap)?;
    let (replies, _board) = play(
        heap,
        board_config(),
        FIRST_REGISTERS,
        board_bus(heap)?,
        &calls,
    )?;
    for reply in &replies {
        match *reply {
            // Said here too, since a text with nothing to format needs no buffer.
            Reply::Lines(Ok(())) => println!(rt; "lines")?,
            told => println!(rt; "{}", Told(told))?,
        }
    }
    Ok(())
}

fn main(rt: HostRuntime) -> anyhow::Result<()> {
    let mut text = String::new(rt.alloc());
    rt.stdin().read_to_string(&mut text)?;
    play_text(&rt, text.as_str())
}
