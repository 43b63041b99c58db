// Shifts by the low five bits of an amount.
ghost use Rattle.std.specs.Prelude.{◌≡◌, ◌%◌};
ghost use Rattle.alu.specs.Shift.{shifted};

use isa::ShiftOp;

pub fn shift(op: ShiftOp, x: u32, amount: u32) -> u32
    ensures value { result ≡ shifted op x (amount % 32) }
{
    match op {
        ShiftOp::Sru => x.wrapping_shr(amount),
        ShiftOp::Sr => x.cast_signed().wrapping_shr(amount).cast_unsigned(),
        ShiftOp::Sl => x.wrapping_shl(amount),
    }
}
