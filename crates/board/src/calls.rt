// Setting the outside lines, looking at a byte, and showing a register.
ghost use Rattle.std.specs.Prelude.{◌≡◌};
ghost use Rattle.board.specs.Calls.{lines_answer, after_lines, look_answer, show_answer};
ghost use Rattle.board.specs.Machine.{seen, with_cpu};

use crate::machine::Board;
use crate::refusals::{LinesRefused, ShowRefused};
use bus::{Bus, Fault, Size};

// Two types with a number each: what one call turns down is nothing that the other may answer.
impl LinesRefused {
    pub fn number(self) -> u8
        ensures value { result ≡ 14 }
    {
        14
    }
}

impl ShowRefused {
    pub fn number(self) -> u8
        ensures value { result ≡ 15 }
    {
        15
    }
}

impl<B: Bus> Board<B> {
    /// Sets the lines from outside the bus.
    pub fn lines(&mut self, word: u32) -> Result<(), LinesRefused>
        ensures answer { result ≡ lines_answer self.old.processor word }
        ensures state { self.new.processor ≡ after_lines self.old.processor word }
        ensures kept { self.new.bus ≡ self.old.bus }
    {
        if self.processor.knows_lines(word) {
            self.processor.set_outside(word);
            Ok(())
        } else {
            Err(LinesRefused)
        }
    }

    /// The byte at an address, by a read of the bus.
    pub fn look(&mut self, address: u32) -> Result<u8, Fault>
        requires { B.Bus.sound self.old.bus }
        ensures sound { B.Bus.sound self.new.bus }
        ensures state { seen B.Bus.means self.new ≡ seen B.Bus.means self.old }
        ensures answer { result ≡ look_answer B.Bus.rules (seen B.Bus.means self.old) address }
    {
        let value = self.bus.read(Size::Byte, address)?;
        Ok((value % 256) as u8)
    }

    /// The register of an index: the project's rules number them so.
    pub fn show(&self, index: u32) -> Result<u32, ShowRefused>
        ensures answer { result ≡ show_answer self.now.processor index }
    {
        self.processor.register_at(index).ok_or(ShowRefused)
    }
}
