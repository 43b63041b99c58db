// The text of a whole trace.
ghost use Rattle.std.specs.Prelude.{◌≡◌, IfOk, string_bytes, count_by};
ghost use Rattle.report.specs.Lines.{tells_done, tells_taken, trace_text};

use crate::line::{StepLine, end_line, header_line};
use std::alloc::{AllocError, Global};

// How many instructions were done, and how many exceptions taken.
fn counts(lines: &[StepLine]) -> (u64, u64)
    ensures done { result.0 ≡ count_by tells_done lines.now }
    ensures taken { result.1 ≡ count_by tells_taken lines.now }
{
    let done = lines.iter().filter(|line| line.outcome.is_done()).count();
    let taken = lines.iter().filter(|line| line.outcome.is_taken()).count();
    (done as u64, taken as u64)
}

// The header, a line for each step, and the counts of instructions done and exceptions taken.
pub fn trace(heap: Global, lines: &[StepLine]) -> Result<String, AllocError>
    ensures value { IfOk result (λ t. string_bytes t ≡ trace_text lines.now) }
{
    let mut text = header_line(heap)?;
    for line in lines {
        text.push_str(line.text(heap)?.as_str())?;
    }
    let (done, taken) = counts(lines);
    text.push_str(end_line(heap, done, taken)?.as_str())?;
    Ok(text)
}
