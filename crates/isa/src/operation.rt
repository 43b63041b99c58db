// What an opcode names. The numbers are opcodes; where an operation has a second form, its opcode lies at a fixed distance.

/// Has a form with an immediate, at the number, and one with three registers, 0x20 above.
#[derive(Clone, Copy, PartialEq, Eq)]
pub enum BinaryOp {
    Nor = 0x01,
    Mul = 0x02,
    Xor = 0x06,
    And = 0x08,
    Xnor = 0x09,
    Add = 0x0D,
    Or = 0x0E,
    Cmpe = 0x19,
    Cmpg = 0x1A,
    Cmpge = 0x1B,
    Cmpgeu = 0x1C,
    Cmpgu = 0x1D,
    Cmpne = 0x1F,
}

/// Takes its immediate as the high half of a word.
#[derive(Clone, Copy, PartialEq, Eq)]
pub enum HighOp {
    Andhi = 0x18,
    Orhi = 0x1E,
}

/// Has a form with an immediate, at the number, and one with three registers, 0x20 above.
#[derive(Clone, Copy, PartialEq, Eq)]
pub enum ShiftOp {
    Sru = 0x00,
    Sr = 0x05,
    Sl = 0x0F,
}

#[derive(Clone, Copy, PartialEq, Eq)]
pub enum LoadOp {
    Lb = 0x04,
    Lh = 0x07,
    Lw = 0x0A,
    Lhu = 0x0B,
    Lbu = 0x10,
}

#[derive(Clone, Copy, PartialEq, Eq)]
pub enum StoreOp {
    Sh = 0x03,
    Sb = 0x0C,
    Sw = 0x16,
}

#[derive(Clone, Copy, PartialEq, Eq)]
pub enum BranchOp {
    Be = 0x11,
    Bg = 0x12,
    Bge = 0x13,
    Bgeu = 0x14,
    Bgu = 0x15,
    Bne = 0x17,
}

#[derive(Clone, Copy, PartialEq, Eq)]
pub enum DivideOp {
    Divu = 0x23,
    Modu = 0x31,
}

#[derive(Clone, Copy, PartialEq, Eq)]
pub enum ExtendOp {
    Sextb = 0x2C,
    Sexth = 0x37,
}

/// Has a form that jumps to a register, at the number, and one that jumps by an offset, 8 above.
#[derive(Clone, Copy, PartialEq, Eq)]
pub enum JumpOp {
    B = 0x30,
    Call = 0x36,
}

#[derive(Clone, Copy, PartialEq, Eq)]
pub enum ImmediateOp {
    Binary(BinaryOp),
    High(HighOp),
}

#[derive(Clone, Copy, PartialEq, Eq)]
pub enum RegisterOp {
    Binary(BinaryOp),
    Shift(ShiftOp),
    Sub,
    Divide(DivideOp),
}

// Nothing compares two of these, and comparing would lengthen the check.
#[derive(Clone, Copy)]
pub enum Operation {
    Immediate(ImmediateOp),
    ShiftImmediate(ShiftOp),
    Load(LoadOp),
    Store(StoreOp),
    Branch(BranchOp),
    Register(RegisterOp),
    Extend(ExtendOp),
    Jump(JumpOp),
    JumpOffset(JumpOp),
    ReadCsr,
    WriteCsr,
    Raise,
}

/// What a raise says in its low five bits.
#[derive(Clone, Copy, PartialEq, Eq)]
pub enum RaiseOp {
    Break = 2,
    Scall = 7,
}
