// Narrow numbers made into words.
ghost use Rattle.std.specs.Prelude.{◌≡◌, ◌%◌, ◌^◌, ◌<◌};
ghost use Rattle.alu.specs.Extend.{sign_extended, extended};

use isa::ExtendOp;

// The low WIDTH bits of a number, sign-extended.
fn sign_extend<const WIDTH: u32>(bits: u32) -> u32
    requires some { 0 < WIDTH }
    requires within { WIDTH < 33 }
    ensures value { result ≡ sign_extended WIDTH (bits % 2 ^ WIDTH) }
{
    let above = 32 - WIDTH;
    ((bits << above).cast_signed() >> above).cast_unsigned()
}

pub fn sign_extend_byte(byte: u8) -> u32
    ensures value { result ≡ sign_extended 8 byte }
{
    sign_extend::<8>(u32::from(byte))
}

pub fn sign_extend_half(half: u16) -> u32
    ensures value { result ≡ sign_extended 16 half }
{
    sign_extend::<16>(u32::from(half))
}

// The low 26 bits of a number, sign-extended.
pub fn sign_extend_26(bits: u32) -> u32
    ensures value { result ≡ sign_extended 26 (bits % 2 ^ 26) }
{
    sign_extend::<26>(bits)
}

pub fn extend(op: ExtendOp, x: u32) -> u32
    ensures value { result ≡ extended op x }
{
    match op {
        ExtendOp::Sextb => sign_extend_byte((x % 0x100) as u8),
        ExtendOp::Sexth => sign_extend_half((x % 0x1_0000) as u16),
    }
}
