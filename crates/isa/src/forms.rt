// What an operation makes of the fields of a word.
ghost use Rattle.std.specs.Prelude.{◌≡◌, Some};
ghost use Rattle.isa.specs.Decode.{formed, raised};

use crate::instruction::Instruction;
use crate::offset26::Offset26;
use crate::operation::*;
use crate::shift_amount::ShiftAmount;
use crate::word_fields::*;

fn immediate(op: ImmediateOp, word: u32) -> Instruction
    ensures value { formed (Operation.Immediate op) word ≡ Some result }
{
    Instruction::Immediate {
        op,
        from: register::<A>(word),
        value: low_half(word),
        to: register::<B>(word),
    }
}

fn shift_immediate(op: ShiftOp, word: u32) -> Instruction
    ensures value { formed (Operation.ShiftImmediate op) word ≡ Some result }
{
    let amount = ShiftAmount::from_low_bits(bit_field(word, 4, 0));
    Instruction::ShiftImmediate {
        op,
        from: register::<A>(word),
        amount,
        to: register::<B>(word),
    }
}

fn load(op: LoadOp, word: u32) -> Instruction
    ensures value { formed (Operation.Load op) word ≡ Some result }
{
    Instruction::Load {
        op,
        base: register::<A>(word),
        offset: low_half(word),
        to: register::<B>(word),
    }
}

fn store(op: StoreOp, word: u32) -> Instruction
    ensures value { formed (Operation.Store op) word ≡ Some result }
{
    Instruction::Store {
        op,
        base: register::<A>(word),
        offset: low_half(word),
        from: register::<B>(word),
    }
}

fn branch(op: BranchOp, word: u32) -> Instruction
    ensures value { formed (Operation.Branch op) word ≡ Some result }
{
    Instruction::Branch {
        op,
        left: register::<A>(word),
        right: register::<B>(word),
        offset: low_half(word),
    }
}

fn registers(op: RegisterOp, word: u32) -> Instruction
    ensures value { formed (Operation.Register op) word ≡ Some result }
{
    Instruction::Register {
        op,
        left: register::<A>(word),
        right: register::<B>(word),
        to: register::<C>(word),
    }
}

fn jump_offset(op: JumpOp, word: u32) -> Instruction
    ensures value { formed (Operation.JumpOffset op) word ≡ Some result }
{
    let offset = Offset26::from_low_bits(bit_field(word, 25, 0));
    Instruction::JumpOffset { op, offset }
}

/// What a raise with this code in its low five bits is, if anything.
fn raise(code: u32) -> Option<Instruction>
    ensures value { result ≡ raised code }
{
    match code {
        2 => Some(Instruction::Raise { op: RaiseOp::Break }),
        7 => Some(Instruction::Raise { op: RaiseOp::Scall }),
        _ => None,
    }
}

/// What an operation makes of a word whose unused bits are zero.
pub(crate) fn form(op: Operation, word: u32) -> Option<Instruction>
    ensures value { result ≡ formed op word }
{
    let a = register::<A>(word);
    let b = register::<B>(word);
    let c = register::<C>(word);
    let csr = csr_a(word);
    let instruction = match op {
        Operation::Immediate(op) => immediate(op, word),
        Operation::ShiftImmediate(op) => shift_immediate(op, word),
        Operation::Load(op) => load(op, word),
        Operation::Store(op) => store(op, word),
        Operation::Branch(op) => branch(op, word),
        Operation::Register(op) => registers(op, word),
        Operation::Extend(op) => Instruction::Extend { op, from: a, to: c },
        Operation::Jump(op) => Instruction::Jump { op, target: a },
        Operation::JumpOffset(op) => jump_offset(op, word),
        Operation::ReadCsr => Instruction::ReadCsr { csr, to: c },
        Operation::WriteCsr => Instruction::WriteCsr { csr, from: b },
        Operation::Raise => return raise(bit_field(word, 4, 0)),
    };
    Some(instruction)
}
