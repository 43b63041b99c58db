// Loads and stores through the bus; base and offset are two parameters, as the instruction has them.
ghost use Rattle.std.specs.Prelude.{◌≡◌};
ghost use Rattle.board.specs.Data.{load_size, store_size, loaded, data_address};
ghost use Rattle.board.specs.Execute.{executed};
ghost use Rattle.board.specs.Machine.{seen, or_stay, told};

use crate::machine::Board;
use alu::extend::{extend, sign_extend_half};
use bus::{Bus, Size};
use cpu::{Processor, Trouble};
use isa::{ExtendOp, Instruction, LoadOp, Register, StoreOp};

pub(crate) fn load_size(op: LoadOp) -> Size
    ensures { result ≡ load_size op }
{
    match op {
        LoadOp::Lb | LoadOp::Lbu => Size::Byte,
        LoadOp::Lh | LoadOp::Lhu => Size::Half,
        LoadOp::Lw => Size::Word,
    }
}

pub(crate) fn store_size(op: StoreOp) -> Size
    ensures { result ≡ store_size op }
{
    match op {
        StoreOp::Sb => Size::Byte,
        StoreOp::Sh => Size::Half,
        StoreOp::Sw => Size::Word,
    }
}

fn extend_loaded(op: LoadOp, value: u32) -> u32
    ensures { result ≡ loaded op value }
{
    match op {
        LoadOp::Lb => extend(ExtendOp::Sextb, value),
        LoadOp::Lh => extend(ExtendOp::Sexth, value),
        LoadOp::Lw | LoadOp::Lhu | LoadOp::Lbu => value,
    }
}

pub(crate) fn data_address(processor: &Processor, base: Register, offset: u16) -> u32
    ensures { result ≡ data_address processor.now base offset }
{
    processor.get(base).wrapping_add(sign_extend_half(offset))
}

impl<B: Bus> Board<B> {
    pub(crate) fn load_data(
        &mut self,
        op: LoadOp,
        base: Register,
        offset: u16,
        to: Register,
    ) -> Result<(), Trouble>
        requires { B.Bus.sound self.old.bus }
        ensures sound { B.Bus.sound self.new.bus }
        ensures state { seen B.Bus.means self.new ≡ or_stay (seen B.Bus.means self.old) (executed B.Bus.rules (seen B.Bus.means self.old) (Instruction.Load op base offset to)) }
        ensures answer { result ≡ told (executed B.Bus.rules (seen B.Bus.means self.old) (Instruction.Load op base offset to)) }
    {
        let address = data_address(&self.processor, base, offset);
        let value = self.bus.read(load_size(op), address)?;
        self.processor.result(to, extend_loaded(op, value));
        Ok(())
    }

    pub(crate) fn store_data(
        &mut self,
        op: StoreOp,
        base: Register,
        offset: u16,
        from: Register,
    ) -> Result<(), Trouble>
        requires { B.Bus.sound self.old.bus }
        ensures sound { B.Bus.sound self.new.bus }
        ensures state { seen B.Bus.means self.new ≡ or_stay (seen B.Bus.means self.old) (executed B.Bus.rules (seen B.Bus.means self.old) (Instruction.Store op base offset from)) }
        ensures answer { result ≡ told (executed B.Bus.rules (seen B.Bus.means self.old) (Instruction.Store op base offset from)) }
    {
        let address = data_address(&self.processor, base, offset);
        let value = self.processor.get(from);
        self.bus.write(store_size(op), address, value)?;
        self.processor.advance();
        Ok(())
    }
}
