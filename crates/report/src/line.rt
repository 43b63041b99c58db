// The lines of a trace, each a row of fields: functions, and no `Display`, since `decimal` makes its text on the heap.
ghost use Rattle.std.specs.Prelude.{◌≡◌, IfOk, string_bytes};
ghost use Rattle.report.specs.Lines.{header, step_text, end_text, refusal_text};

use crate::number::decimal;
use crate::outcome::Outcome;
use hex_text::hexadecimal;
use std::alloc::{AllocError, Global};

/// One step: its number, the program counter before it, and how it ended.
#[derive(Clone, Copy, Debug, PartialEq, Eq)]
pub struct StepLine {
    pub step: u32,
    pub pc: u32,
    pub outcome: Outcome,
}

impl StepLine {
    pub fn text(&self, heap: Global) -> Result<String, AllocError>
        ensures value { IfOk result (λ t. string_bytes t ≡ step_text self.now) }
    {
        let step = decimal(heap, self.step.into())?;
        let pc = hexadecimal(heap, self.pc)?;
        let letter = self.outcome.letter();
        let value = hexadecimal(heap, self.outcome.value())?;
        format!(in heap; "{step},{pc},{letter},{value}\n")
    }
}

// The names of the fields of a step's line.
pub fn header_line(heap: Global) -> Result<String, AllocError>
    ensures value { IfOk result (λ t. string_bytes t ≡ header) }
{
    String::from_str(heap, "n,pc,kind,value\n")
}

// How many instructions were done and exceptions taken.
pub fn end_line(heap: Global, done: u64, taken: u64) -> Result<String, AllocError>
    ensures value { IfOk result (λ t. string_bytes t ≡ end_text done taken) }
{
    let done = decimal(heap, done)?;
    let taken = decimal(heap, taken)?;
    format!(in heap; "end,{done},{taken}\n")
}

// An image was turned down: the refusal's number, as a field of the text, and the place in the image.
pub fn refusal_line(heap: Global, number: u32, place: usize) -> Result<String, AllocError>
    ensures value { IfOk result (λ t. string_bytes t ≡ refusal_text number place) }
{
    let number = decimal(heap, number.into())?;
    let place = decimal(heap, place as u64)?;
    format!(in heap; "refused,{number},{place}\n")
}
