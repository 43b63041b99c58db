// The text of a trace.
ghost use Rattle.std.specs.Prelude.{◌≡◌, IfOk, string_bytes};
ghost use Rattle.tracer.specs.Layout.{traced};
ghost use Rattle.tracer.specs.Whole.{trace_on};

use crate::loading::load;
use crate::stepping::steps;
use board::Board;
use bus::Bus;
use layout::{FIRST_REGISTERS, board_bus, board_config};
use report::{refusal_line, trace};
use std::alloc::{AllocError, Global};

const BUDGET: u32 = 64;

// The text that an image gives on a board with this bus.
pub fn trace_on<B: Bus + Drop>(heap: Global, bus: B, image: &[u8]) -> Result<String, AllocError>
    requires { B.Bus.sound bus }
    ensures value { IfOk result (λ t. string_bytes t ≡ trace_on B.Bus.rules (B.Bus.means bus) image.now) }
{
    let mut board = Board::power(board_config(), FIRST_REGISTERS, bus);
    match load(&mut board, image) {
        Ok(_) => {
            let lines = steps(heap, &mut board, BUDGET)?;
            trace(heap, &lines)
        }
        Err(refusal) => refusal_line(heap, refusal.number(), refusal.place()),
    }
}

// The text that an image gives on the board of the programs.
pub fn trace_image(heap: Global, image: &[u8]) -> Result<String, AllocError>
    ensures value { IfOk result (λ t. string_bytes t ≡ traced image.now) }
{
    trace_on(heap, board_bus(heap)?, image)
}
