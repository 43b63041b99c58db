// An instruction: one case a form, with values that fit its fields.
use crate::csr_number::CsrNumber;
use crate::offset26::Offset26;
use crate::operation::*;
use crate::register::Register;
use crate::shift_amount::ShiftAmount;

#[derive(Clone, Copy, PartialEq, Eq)]
pub enum Instruction {
    Immediate {
        op: ImmediateOp,
        from: Register,
        value: u16,
        to: Register,
    },
    ShiftImmediate {
        op: ShiftOp,
        from: Register,
        amount: ShiftAmount,
        to: Register,
    },
    // A base and an offset are two fields, as the instruction has them.
    Load {
        op: LoadOp,
        base: Register,
        offset: u16,
        to: Register,
    },
    Store {
        op: StoreOp,
        base: Register,
        offset: u16,
        from: Register,
    },
    Branch {
        op: BranchOp,
        left: Register,
        right: Register,
        offset: u16,
    },
    Register {
        op: RegisterOp,
        left: Register,
        right: Register,
        to: Register,
    },
    Extend {
        op: ExtendOp,
        from: Register,
        to: Register,
    },
    Jump {
        op: JumpOp,
        target: Register,
    },
    JumpOffset {
        op: JumpOp,
        offset: Offset26,
    },
    ReadCsr {
        csr: CsrNumber,
        to: Register,
    },
    WriteCsr {
        csr: CsrNumber,
        from: Register,
    },
    Raise {
        op: RaiseOp,
    },
}
