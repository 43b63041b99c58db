// Parts of a word. `isa` has its own for its fields: it asks for the order of its bounds, and so is no public call.
ghost use Rattle.std.specs.Prelude.{◌≡◌, ◌/◌, ◌%◌, ◌^◌, ◌<◌};
ghost use Rattle.cpu.specs.Config.{has_bit};

pub(crate) fn has_bit(bit: u32, word: u32) -> bool
    requires { bit < 32 }
    ensures { result ≡ has_bit bit word }
{
    (word >> bit) % 2 == 1
}

// The `WIDTH` bits from bit `LOW` on.
pub(crate) fn field<const LOW: u32, const WIDTH: u32>(word: u32) -> u32
    requires low { LOW < 32 }
    requires width { WIDTH < 32 }
    ensures { result ≡ word / 2 ^ LOW % 2 ^ WIDTH }
{
    (word >> LOW) % (1 << WIDTH)
}
