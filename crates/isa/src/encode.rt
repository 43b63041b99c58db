// The word of an instruction.
ghost use Rattle.std.specs.Prelude.{◌≡◌, ℕ, ◌*◌, ◌^◌, ◌<◌, Some};
ghost use Rattle.isa.specs.Decode.{decoded};
ghost use Rattle.isa.specs.Encode.{Packed, Laid};
ghost use Rattle.isa.specs.Operations.{named_by};

use crate::instruction::Instruction;
use crate::operation::*;
use crate::register::Register;
use crate::word_fields::{A, B, C};

/// Fields A and B, and the low 16 bits, of a word whose opcode is 0.
fn pack(a: u8, b: u8, low: u16) -> u32
    requires a_within { a < 32 }
    requires b_within { b < 32 }
    ensures value { Packed a b low result }
{
    u32::from(a) << A | u32::from(b) << B | u32::from(low)
}

/// The low half of a word with a register in field C and no other bit.
fn in_field_c(register: Register) -> u16
    ensures value { result ≡ register.number * 2 ^ 11 }
{
    u16::from(register.number) << C
}

impl Instruction {
    /// The word of an instruction. A method, as `decode` is, and no `From`: both go by the names that the instruction set gives them.
    pub fn encode(self) -> u32
        ensures back { decoded result ≡ Some self }
        ensures only { (v : ℕ) → v < 2 ^ 32 → decoded v ≡ Some self → v ≡ result }
    {
        u32::from(self.operation().opcode()) << 26 | self.below_opcode()
    }

    /// What the opcode of an instruction names.
    pub fn operation(self) -> Operation
        ensures value { result ≡ named_by self }
    {
        match self {
            Instruction::Immediate { op, .. } => Operation::Immediate(op),
            Instruction::ShiftImmediate { op, .. } => Operation::ShiftImmediate(op),
            Instruction::Load { op, .. } => Operation::Load(op),
            Instruction::Store { op, .. } => Operation::Store(op),
            Instruction::Branch { op, .. } => Operation::Branch(op),
            Instruction::Register { op, .. } => Operation::Register(op),
            Instruction::Extend { op, .. } => Operation::Extend(op),
            Instruction::Jump { op, .. } => Operation::Jump(op),
            Instruction::JumpOffset { op, .. } => Operation::JumpOffset(op),
            Instruction::ReadCsr { .. } => Operation::ReadCsr,
            Instruction::WriteCsr { .. } => Operation::WriteCsr,
            Instruction::Raise { .. } => Operation::Raise,
        }
    }

    /// The 26 bits below the opcode.
    fn below_opcode(self) -> u32
        ensures value { Laid self result }
    {
        match self {
            Instruction::Immediate {
                from,
                value,
                to,
                ..
            } => pack(from.number, to.number, value),
            Instruction::ShiftImmediate {
                from,
                amount,
                to,
                ..
            } => pack(from.number, to.number, u16::from(amount.places)),
            Instruction::Load {
                base,
                offset,
                to,
                ..
            } => pack(base.number, to.number, offset),
            Instruction::Store {
                base,
                offset,
                from,
                ..
            } => pack(base.number, from.number, offset),
            Instruction::Branch {
                left,
                right,
                offset,
                ..
            } => pack(left.number, right.number, offset),
            Instruction::Register {
                left,
                right,
                to,
                ..
            } => pack(left.number, right.number, in_field_c(to)),
            Instruction::Extend { from, to, .. } => pack(from.number, 0, in_field_c(to)),
            Instruction::Jump { target, .. } => pack(target.number, 0, 0),
            Instruction::JumpOffset { offset, .. } => offset.bits,
            Instruction::ReadCsr { csr, to } => pack(csr.number, 0, in_field_c(to)),
            Instruction::WriteCsr { csr, from } => pack(csr.number, from.number, 0),
            Instruction::Raise { op } => pack(0, 0, op as u16),
        }
    }
}
