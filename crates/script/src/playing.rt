// A script of calls, made of a fresh board.
ghost use Rattle.std.specs.Prelude.{◌≡◌, map, IfOk, IfErr};
ghost use Rattle.board.specs.Machine.{machine, seen};
ghost use Rattle.cpu.specs.State.{reset};
ghost use Rattle.script.specs.Promise.{Promise};
ghost use Rattle.script.specs.Request.{request, told};

use crate::call::{Call, Reply};
use crate::performing::perform;
use board::Board;
use bus::Bus;
use cpu::Config;
use std::alloc::{AllocFailed, Global};

// Powers a board and makes the calls in order: the replies, and the board. Where there is no memory for the replies, the bus comes back as it was.
pub fn play<B: Bus>(
    heap: Global,
    config: Config,
    registers: [u32; 32],
    bus: B,
    script: &[Call<&[u8]>],
) -> Result<(Vec<Reply>, Board<B>), AllocFailed<B>>
    requires { B.Bus.sound bus }
    ensures promise { IfOk result (λ x. Promise B.Bus.rules (machine (reset config registers) (B.Bus.means bus)) (map request script.now) (map told x.0.items) (seen B.Bus.means x.1)) }
    ensures sound { IfOk result (λ x. B.Bus.sound x.1.bus) }
    ensures refused { IfErr result (λ y. y.value ≡ bus) }
{
    let Ok(mut replies) = Vec::with_capacity(heap, script.len()) else {
        return Err(AllocFailed { value: bus });
    };
    let mut board = Board::power(config, registers, bus);
    for call in script {
        let reply = perform(&mut board, *call);
        replies.push_reserved(reply);
    }
    Ok((replies, board))
}
