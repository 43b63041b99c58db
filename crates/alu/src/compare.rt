// Order tests of two words.
ghost use Rattle.std.specs.Prelude.{◌≡◌};
ghost use Rattle.alu.specs.Compare.{branches, greater, greater_equal};

use isa::BranchOp;

pub fn greater_signed(x: u32, y: u32) -> bool
    ensures value { result ≡ greater x y }
{
    x.cast_signed() > y.cast_signed()
}

pub fn greater_equal_signed(x: u32, y: u32) -> bool
    ensures value { result ≡ greater_equal x y }
{
    x.cast_signed() >= y.cast_signed()
}

// Whether a branch that compares x with y is taken.
pub fn branch_taken(op: BranchOp, x: u32, y: u32) -> bool
    ensures value { result ≡ branches op x y }
{
    match op {
        BranchOp::Be => x == y,
        BranchOp::Bg => greater_signed(x, y),
        BranchOp::Bge => greater_equal_signed(x, y),
        BranchOp::Bgeu => x >= y,
        BranchOp::Bgu => x > y,
        BranchOp::Bne => x != y,
    }
}
