// The LM32 instruction set: which instruction a word is, and which word an instruction is.
#![tactic(auto)]

mod csr_number;
mod decode;
mod encode;
mod forms;
mod instruction;
mod low_bits;
mod offset26;
mod opcode;
mod opcode_table;
mod operation;
mod register;
mod reserved;
mod round_trip;
mod shift_amount;
mod word_fields;

pub use csr_number::CsrNumber;
pub use instruction::Instruction;
pub use offset26::Offset26;
pub use operation::{
    BinaryOp, BranchOp, DivideOp, ExtendOp, HighOp, ImmediateOp, JumpOp, LoadOp, Operation,
    RaiseOp, RegisterOp, ShiftOp, StoreOp,
};
pub use register::Register;
pub use reserved::Reserved;
pub use round_trip::{redecode, reencode};
pub use shift_amount::ShiftAmount;
