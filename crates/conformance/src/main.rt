// Runs the cases of vectors.txt on the board, and tells which of them end otherwise than on the simulator that wrote them.
#![tactic(auto)]

mod case;
mod comparing;
mod difference;
mod machine;
mod reading;
mod tally;

use anyhow::ensure;
use comparing::{Verdict, compare};
use difference::Difference;
use machine::run_case;
use reading::read_case;
use std::alloc::Global;
use std::{fs, io};
use tally::Tally;

// How many differences of a case are printed.
const FEW: usize = 6;

// The name of a line's case, and how it compares.
fn check_line(heap: Global, line: &str) -> anyhow::Result<(&str, Verdict)> {
    let case = read_case(heap, line)?;
    let outcome = run_case(heap, &case)?;
    let verdict = compare(heap, &case, &outcome)?;
    Ok((case.name, verdict))
}

fn print_differences(
    rt: &HostRuntime,
    number: u64,
    name: &str,
    list: &[Difference],
) -> io::Result<()> {
    let count = list.len();
    println!(rt; "line {number}, {name}: values that differ: {count}")?;
    for difference in list.iter().take(FEW) {
        println!(rt; "line {number}, {name}: {difference}")?;
    }
    Ok(())
}

// Checks each line. One that cannot be read counts as a difference.
fn check_lines<'a>(rt: &HostRuntime, text: &'a str) -> anyhow::Result<Tally<'a>> {
    let mut tally = Tally::new(rt.alloc());
    for line in text.split_terminator('\n') {
        let number = tally.count_case();
        match check_line(rt.alloc(), line) {
            Ok((name, verdict)) => {
                tally.count_name(name)?;
                if let Err(list) = verdict {
                    tally.count_difference();
                    print_differences(rt, number, name, &list)?;
                }
            }
            Err(why) => {
                tally.count_difference();
                println!(rt; "line {number}: {why}")?;
            }
        }
    }
    Ok(tally)
}

fn check_file(rt: &HostRuntime) -> anyhow::Result<()> {
    let text = fs::read_to_string(rt, "vectors.txt")?;
    let tally = check_lines(rt, text.as_str())?;
    tally.print(rt)?;
    ensure!(tally.is_clean(), "the board and the simulator differ");
    Ok(())
}

fn main(rt: HostRuntime) -> anyhow::Result<()> {
    check_file(&rt)
}
