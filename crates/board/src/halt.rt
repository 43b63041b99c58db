// What a step finds at PC: an instruction that is ready to be done, or what halts the step before it.
ghost use Rattle.std.specs.Prelude.{◌≡◌};
ghost use Rattle.board.specs.declared.halt.Halt.TheVariants as halts;
ghost use Rattle.cpu.specs.declared.answer.Stop.TheVariants as stops;

use cpu::{Exception, Stop};
use isa::{Instruction, Reserved};

// An instruction, with the word that it is.
#[derive(Clone, Copy)]
pub(crate) struct Ready {
    pub(crate) word: u32,
    pub(crate) instruction: Instruction,
}

// A stop, or an exception that is taken in place of the instruction.
#[derive(Clone, Copy)]
pub(crate) enum Halt {
    Stop(Stop),
    Exception(Exception),
}

impl From<Stop> for Halt {
    ghost from_gives = { λ s h. h ≡ halts.Stop s };

    fn from(stop: Stop) -> Halt {
        Halt::Stop(stop)
    }
}

impl From<Reserved> for Halt {
    ghost from_gives = { λ _ h. h ≡ halts.Stop stops.Reserved };

    fn from(_word: Reserved) -> Halt {
        Halt::Stop(Stop::Reserved)
    }
}

impl From<Exception> for Halt {
    ghost from_gives = { λ e h. h ≡ halts.Exception e };

    fn from(exception: Exception) -> Halt {
        Halt::Exception(exception)
    }
}
