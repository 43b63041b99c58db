// Executing an instruction, once nothing bars it.
ghost use Rattle.std.specs.Prelude.{◌≡◌};
ghost use Rattle.board.specs.Execute.{aligned, barred, register_result, raised, executed};
ghost use Rattle.board.specs.Machine.{seen, or_stay, told};
ghost use Rattle.board.specs.Ready.{allowed};

use crate::access::{data_address, load_size, store_size};
use crate::machine::Board;
use alu::arithmetic::{compute, compute_immediate, divide, subtract};
use alu::extend::extend;
use alu::shift::shift;
use bus::Bus;
use cpu::csr::Csr;
use cpu::{Processor, Stop, Trouble};
use isa::{Instruction, RaiseOp, RegisterOp};

fn is_aligned(processor: &Processor, instruction: Instruction) -> bool
    ensures { result ≡ aligned processor.now instruction }
{
    match instruction {
        Instruction::Load {
            op,
            base,
            offset,
            ..
        } => load_size(op).is_aligned(data_address(processor, base, offset)),
        Instruction::Store {
            op,
            base,
            offset,
            ..
        } => store_size(op).is_aligned(data_address(processor, base, offset)),
        _ => true,
    }
}

// Whether an instruction may be done, or what stops it before it does anything.
pub(crate) fn allow(processor: &Processor, instruction: Instruction) -> Result<(), Stop>
    ensures { result ≡ allowed (barred processor.now instruction) }
{
    if !processor.has_configured(instruction) {
        return Err(Stop::NotConfigured);
    }
    if !is_aligned(processor, instruction) {
        return Err(Stop::Misaligned);
    }
    Ok(())
}

fn compute_register(op: RegisterOp, x: u32, y: u32) -> Result<u32, Trouble>
    ensures { result ≡ register_result op x y }
{
    match op {
        RegisterOp::Binary(op) => Ok(compute(op, x, y)),
        RegisterOp::Shift(op) => Ok(shift(op, x, y)),
        RegisterOp::Sub => Ok(subtract(x, y)),
        RegisterOp::Divide(op) => divide(op, x, y).ok_or(Trouble::Divisor),
    }
}

fn raise(op: RaiseOp) -> Trouble
    ensures { result ≡ raised op }
{
    match op {
        RaiseOp::Break => Trouble::Break,
        RaiseOp::Scall => Trouble::Scall,
    }
}

impl<B: Bus> Board<B> {
    // Does an instruction, or answers what keeps it from being done and leaves the machine as it was.
    pub(crate) fn execute(&mut self, instruction: Instruction) -> Result<(), Trouble>
        requires { B.Bus.sound self.old.bus }
        ensures sound { B.Bus.sound self.new.bus }
        ensures state { seen B.Bus.means self.new ≡ or_stay (seen B.Bus.means self.old) (executed B.Bus.rules (seen B.Bus.means self.old) instruction) }
        ensures answer { result ≡ told (executed B.Bus.rules (seen B.Bus.means self.old) instruction) }
    {
        match instruction {
            Instruction::Immediate {
                op,
                from,
                value,
                to,
            } => {
                let value = compute_immediate(op, self.processor.get(from), value);
                self.processor.result(to, value);
            }
            Instruction::ShiftImmediate {
                op,
                from,
                amount,
                to,
            } => {
                let value = shift(op, self.processor.get(from), u32::from(amount.places));
                self.processor.result(to, value);
            }
            Instruction::Load {
                op,
                base,
                offset,
                to,
            } => self.load_data(op, base, offset, to)?,
            Instruction::Store {
                op,
                base,
                offset,
                from,
            } => self.store_data(op, base, offset, from)?,
            Instruction::Branch {
                op,
                left,
                right,
                offset,
            } => self.processor.branch(op, left, right, offset),
            Instruction::Register {
                op,
                left,
                right,
                to,
            } => {
                let value = compute_register(
                    op,
                    self.processor.get(left),
                    self.processor.get(right),
                )?;
                self.processor.result(to, value);
            }
            Instruction::Extend { op, from, to } => {
                let value = extend(op, self.processor.get(from));
                self.processor.result(to, value);
            }
            Instruction::Jump { op, target } => self.processor.jump(op, target),
            Instruction::JumpOffset { op, offset } => self.processor.jump_by(op, offset),
            Instruction::ReadCsr { csr, to } => {
                let value = self.processor.read_csr(Csr::from(csr));
                self.processor.result(to, value);
            }
            Instruction::WriteCsr { csr, from } => {
                let value = self.processor.get(from);
                self.processor.write_csr(Csr::from(csr), value);
                self.processor.advance();
            }
            Instruction::Raise { op } => return Err(raise(op)),
        }
        Ok(())
    }
}
