// Runs each example image, and compares its trace with the one that stands beside it. Then the longest input, and one byte more.
#![tactic(auto)]

use std::{fs, io};
use tracer::{LONGEST, trace_image};

const NAMES: [&str; 10] = [
    "worked", "branch", "port", "pending", "faults", "remap", "table", "handler", "limit",
    "refused",
];

fn verdict(same: bool) -> &'static str {
    if same {
        "the trace that it should give"
    } else {
        "another trace than it should give"
    }
}

fn run_example(rt: &HostRuntime, name: &str) -> io::Result<()> {
    let image = fs::read(rt, format!(in rt.alloc(); "{name}.image")?.as_str())?;
    let trace = fs::read(rt, format!(in rt.alloc(); "{name}.trace")?.as_str())?;
    let text = trace_image(rt.alloc(), &image)?;
    let told = verdict(text.as_bytes() == trace.as_slice());
    println!(rt; "{name}: {told}")
}

fn run_filled(rt: &HostRuntime, length: usize) -> io::Result<()> {
    let image = vec![in rt.alloc(); b'M'; length]?;
    let text = trace_image(rt.alloc(), &image)?;
    print!(rt; "{length} bytes: {text}")
}

fn main(rt: HostRuntime) -> io::Result<()> {
    for name in NAMES {
        run_example(&rt, name)?;
    }
    run_filled(&rt, LONGEST)?;
    run_filled(&rt, LONGEST + 1)
}
