// Reads an image from standard input, runs it on the board, and prints the trace.
#![tactic(auto)]

use std::io;
use std::io::Read;
use tracer::{LONGEST, trace_image};

fn main(rt: HostRuntime) -> io::Result<()> {
    let mut image = Vec::new(rt.alloc());
    // One byte more than the longest image, so that a longer input is seen to be longer.
    rt.stdin().take(LONGEST as u64 + 1).read_to_end(&mut image)?;
    let text = trace_image(rt.alloc(), &image)?;
    rt.print(text.as_str())
}
