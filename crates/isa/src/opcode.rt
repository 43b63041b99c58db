// The opcode of an operation, and the operation that an opcode names. Methods, and no `From`, as of `Operation`; each says that the opcode is below 64, since each is a step of the one above it.
ghost use Rattle.std.specs.Prelude.{◌≡◌, ℕ, ◌<◌, Some};
ghost use Rattle.isa.specs.Opcodes.{named};

use crate::opcode_table::OPERATIONS;
use crate::operation::*;

impl ImmediateOp {
    fn opcode(self) -> u8
        ensures value { named result ≡ Some (Operation.Immediate self) }
        ensures within { result < 64 }
    {
        match self {
            ImmediateOp::Binary(op) => op as u8,
            ImmediateOp::High(op) => op as u8,
        }
    }
}

impl RegisterOp {
    /// Where an operation has a form with an immediate too, its opcode lies 0x20 above that one.
    fn opcode(self) -> u8
        ensures value { named result ≡ Some (Operation.Register self) }
        ensures within { result < 64 }
    {
        match self {
            RegisterOp::Binary(op) => op as u8 + 0x20,
            RegisterOp::Shift(op) => op as u8 + 0x20,
            RegisterOp::Sub => 0x32,
            RegisterOp::Divide(op) => op as u8,
        }
    }
}

impl Operation {
    /// The opcode that names an operation. A method, and no `From`, by the instruction set's own name; so is the way back.
    pub fn opcode(self) -> u8
        ensures value { named result ≡ Some self }
        ensures within { result < 64 }
        ensures only { (k : ℕ) → named k ≡ Some self → k ≡ result }
    {
        self.code()
    }

    /// The same, as the operations' numbers give it.
    fn code(self) -> u8
        ensures value { named result ≡ Some self }
        ensures within { result < 64 }
    {
        match self {
            Operation::Immediate(op) => op.opcode(),
            Operation::ShiftImmediate(op) => op as u8,
            Operation::Load(op) => op as u8,
            Operation::Store(op) => op as u8,
            Operation::Branch(op) => op as u8,
            Operation::Register(op) => op.opcode(),
            Operation::Extend(op) => op as u8,
            Operation::Jump(op) => op as u8,
            Operation::JumpOffset(op) => op as u8 + 8,
            Operation::ReadCsr => 0x24,
            Operation::WriteCsr => 0x34,
            Operation::Raise => 0x2B,
        }
    }

    /// What an opcode names, if anything.
    pub fn from_opcode(opcode: u8) -> Option<Operation>
        ensures value { result ≡ named opcode }
    {
        *OPERATIONS.get(usize::from(opcode))?
    }
}
