// Operations on two words, and on a word and an immediate.
ghost use Rattle.std.specs.Prelude.{◌≡◌, ◌<◌, Some, None};
ghost use Rattle.alu.specs.Arithmetic.{computed, difference, divided, operand, with_immediate, quotient};

use crate::compare::{greater_equal_signed, greater_signed};
use crate::extend::sign_extend_half;
use isa::{BinaryOp, DivideOp, HighOp, ImmediateOp};

pub fn compute(op: BinaryOp, x: u32, y: u32) -> u32
    ensures value { result ≡ computed op x y }
{
    match op {
        BinaryOp::Nor => !(x | y),
        BinaryOp::Mul => x.wrapping_mul(y),
        BinaryOp::Xor => x ^ y,
        BinaryOp::And => x & y,
        BinaryOp::Xnor => !(x ^ y),
        BinaryOp::Add => x.wrapping_add(y),
        BinaryOp::Or => x | y,
        BinaryOp::Cmpe => u32::from(x == y),
        BinaryOp::Cmpg => u32::from(greater_signed(x, y)),
        BinaryOp::Cmpge => u32::from(greater_equal_signed(x, y)),
        BinaryOp::Cmpgeu => u32::from(x >= y),
        BinaryOp::Cmpgu => u32::from(x > y),
        BinaryOp::Cmpne => u32::from(x != y),
    }
}

pub fn subtract(x: u32, y: u32) -> u32
    ensures value { result ≡ difference x y }
{
    x.wrapping_sub(y)
}

// The quotient or the remainder; none where the divisor is 0.
pub fn divide(op: DivideOp, x: u32, y: u32) -> Option<u32>
    ensures answer { result ≡ quotient op x y }
{
    match op {
        DivideOp::Divu => x.checked_div(y),
        DivideOp::Modu => x.checked_rem(y),
    }
}

// The immediate of an operation as a word.
fn extend_operand(op: BinaryOp, value: u16) -> u32
    ensures { result ≡ operand op value }
{
    match op {
        BinaryOp::Nor
        | BinaryOp::Xor
        | BinaryOp::And
        | BinaryOp::Xnor
        | BinaryOp::Or
        | BinaryOp::Cmpgeu
        | BinaryOp::Cmpgu => u32::from(value),
        BinaryOp::Mul
        | BinaryOp::Add
        | BinaryOp::Cmpe
        | BinaryOp::Cmpg
        | BinaryOp::Cmpge
        | BinaryOp::Cmpne => sign_extend_half(value),
    }
}

pub fn compute_immediate(op: ImmediateOp, x: u32, value: u16) -> u32
    ensures value { result ≡ with_immediate op x value }
{
    match op {
        ImmediateOp::Binary(op) => compute(op, x, extend_operand(op, value)),
        ImmediateOp::High(HighOp::Andhi) => x & (u32::from(value) * 0x1_0000),
        ImmediateOp::High(HighOp::Orhi) => x | (u32::from(value) * 0x1_0000),
    }
}
