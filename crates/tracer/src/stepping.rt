// Steps of a board, each as a line of the trace.
ghost use Rattle.std.specs.Prelude.{◌≡◌, IfOk};
ghost use Rattle.board.specs.Machine.{seen};
ghost use Rattle.board.specs.Step.{stepped};
ghost use Rattle.tracer.specs.Steps.{line_at, lines};

use board::Board;
use bus::Bus;
use report::StepLine;
use std::alloc::{AllocError, Global};

// Makes a step, and tells it as the line of this number.
fn step_line<B: Bus>(step: u32, board: &mut Board<B>) -> StepLine
    requires { B.Bus.sound board.old.bus }
    ensures sound { B.Bus.sound board.new.bus }
    ensures state { seen B.Bus.means board.new ≡ (stepped B.Bus.rules (seen B.Bus.means board.old)).1 }
    ensures line { result ≡ line_at B.Bus.rules step (seen B.Bus.means board.old) }
{
    let pc = board.pc();
    let outcome = board.step().into();
    StepLine { step, pc, outcome }
}

// The lines of at most as many steps as the budget has.
pub fn steps<B: Bus>(
    heap: Global,
    board: &mut Board<B>,
    budget: u32,
) -> Result<Vec<StepLine>, AllocError>
    requires { B.Bus.sound board.old.bus }
    ensures sound { B.Bus.sound board.new.bus }
    ensures value { IfOk result (λ v. v.items ≡ lines B.Bus.rules budget 1 (seen B.Bus.means board.old)) }
{
    let mut found = Vec::new(heap);
    for step in 1..=budget {
        let line = step_line(step, board);
        found.push(line)?;
        if line.outcome.is_stopped() {
            return Ok(found);
        }
    }
    Ok(found)
}
