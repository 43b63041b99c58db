// One call of a script.
ghost use Rattle.std.specs.Prelude.{◌≡◌};
ghost use Rattle.board.specs.Machine.{seen};
ghost use Rattle.script.specs.Account.{tells, after};
ghost use Rattle.script.specs.Request.{request, told};

use crate::call::{Call, Reply};
use board::Board;
use bus::Bus;

// Makes a call of a board.
pub fn perform<B: Bus>(board: &mut Board<B>, call: Call<&[u8]>) -> Reply
    requires { B.Bus.sound board.old.bus }
    ensures sound { B.Bus.sound board.new.bus }
    ensures state { seen B.Bus.means board.new ≡ after B.Bus.rules (seen B.Bus.means board.old) (request call.entry) }
    ensures answer { told result ≡ tells B.Bus.rules (seen B.Bus.means board.old) (request call.entry) }
{
    match call {
        Call::Load(image) => Reply::Load(board.load(image)),
        Call::Lines(word) => Reply::Lines(board.lines(word)),
        Call::Look(address) => Reply::Look(board.look(address)),
        Call::Show(index) => Reply::Show(board.show(index)),
        Call::Step => Reply::Step(board.step()),
        Call::Run(budget) => {
            let (done, taken, ending) = board.run(budget);
            Reply::Run {
                done,
                taken,
                ending,
            }
        }
    }
}
