// Loading the image that is to be traced.
ghost use Rattle.std.specs.Prelude.{◌≡◌, OnOk};
ghost use Rattle.board.specs.Load.{loaded_into};
ghost use Rattle.board.specs.Machine.{seen};
ghost use Rattle.tracer.specs.Refusals.{answer_of};
ghost use Rattle.tracer.specs.Whole.{admitted};

use crate::refusal::{LONGEST, Refusal};
use board::Board;
use bus::Bus;

// Puts an image into the memory of the board, and answers the count of its data lines.
pub(crate) fn load<B: Bus>(board: &mut Board<B>, image: &[u8]) -> Result<u32, Refusal>
    requires { B.Bus.sound board.old.bus }
    ensures sound { B.Bus.sound board.new.bus }
    ensures state { OnOk result (seen B.Bus.means board.new ≡ loaded_into B.Bus.rules (seen B.Bus.means board.old) image.now) }
    ensures answer { answer_of result ≡ admitted B.Bus.rules (seen B.Bus.means board.old) image.now }
{
    if image.len() > LONGEST {
        return Err(Refusal::TooLong);
    }
    let count = board.load(image)?;
    Ok(count)
}
