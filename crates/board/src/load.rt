// Loading an image into memory.
ghost use Rattle.std.specs.Prelude.{◌≡◌, true};
ghost use Rattle.std.specs.List.{AllByRecursion};
ghost use Rattle.bus.specs.Rules.{stored_all};
ghost use Rattle.image.specs.Acceptance.{Accepts};
ghost use Rattle.image.specs.Checking.{on_memory, image_data};
ghost use Rattle.image.specs.Meaning.{answer_in, bytes_in};
ghost use Rattle.image.specs.Memory.{memory_in};
ghost use Rattle.board.specs.Load.{put_data, load_answer, loaded_into};
ghost use Rattle.board.specs.Machine.{seen};

use crate::machine::Board;
use bus::{Bus, Size};
use image::{Bytes, Line, Lines, Refusal, check, read_line};

// Puts bytes into memory from `address` on.
fn put_bytes<B: Bus>(bus: &mut B, address: u32, bytes: Bytes)
    requires sound { B.Bus.sound bus.old }
    requires placed { on_memory (memory_in B.Bus.rules (B.Bus.means bus.old)) address (bytes_in bytes) ≡ true }
    ensures sound { B.Bus.sound bus.new }
    ensures meaning { B.Bus.means bus.new ≡ stored_all B.Bus.rules (B.Bus.means bus.old) address (bytes_in bytes) }
{
    for (at, byte) in (u64::from(address)..).zip(bytes) {
        bus.write(Size::Byte, at as u32, u32::from(byte)).unwrap();
    }
}

// Puts the bytes of each data line into memory, line by line up to the end line.
fn put_lines<B: Bus>(bus: &mut B, image: &[u8])
    requires sound { B.Bus.sound bus.old }
    requires placed { AllByRecursion (λ d. on_memory (memory_in B.Bus.rules (B.Bus.means bus.old)) d.address d.bytes ≡ true) (image_data image.now) }
    ensures sound { B.Bus.sound bus.new }
    ensures meaning { B.Bus.means bus.new ≡ put_data B.Bus.rules (B.Bus.means bus.old) (image_data image.now) }
{
    for (_, line) in Lines::new(image) {
        let Some(Line::Data(found)) = read_line(line) else {
            return;
        };
        put_bytes(bus, found.address, found.bytes);
    }
}

impl<B: Bus> Board<B> {
    /// Checks an image whole, then puts its bytes into memory line by line, and answers the count of its data lines.
    pub fn load(&mut self, image: &[u8]) -> Result<u32, Refusal>
        requires { B.Bus.sound self.old.bus }
        ensures sound { B.Bus.sound self.new.bus }
        ensures state { seen B.Bus.means self.new ≡ loaded_into B.Bus.rules (seen B.Bus.means self.old) image.now }
        ensures answer { answer_in result ≡ load_answer B.Bus.rules (seen B.Bus.means self.old) image.now }
        ensures acceptance { Accepts (memory_in B.Bus.rules (B.Bus.means self.old.bus)) image.now (answer_in result) }
    {
        let count = check(&self.bus, image)?;
        put_lines(&mut self.bus, image);
        Ok(count)
    }
}
