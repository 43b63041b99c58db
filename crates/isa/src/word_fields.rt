// The fields of a word: some of its bits in a row, and the registers and halves that they say.
ghost use Rattle.std.specs.Prelude.{◌≡◌, ◌+◌, ◌<◌, ◌≤◌};
ghost use Rattle.isa.specs.Fields.{register};
ghost use Rattle.isa.specs.Words.{field, csr_a, low_half};

use crate::csr_number::CsrNumber;
use crate::low_bits::low_bits;
use crate::register::Register;

/// The lowest bit of field A, which has five.
pub(crate) const A: u32 = 21;

/// The lowest bit of field B, which has five.
pub(crate) const B: u32 = 16;

/// The lowest bit of field C, which has five.
pub(crate) const C: u32 = 11;

/// Bits `high` to `low` of a word.
pub(crate) fn bit_field(word: u32, high: u32, low: u32) -> u32
    requires order { low ≤ high }
    requires narrow { high < low + 31 }
    requires within { high < 32 }
    ensures value { result ≡ field high low word }
{
    low_bits(word >> low, high + 1 - low)
}

/// The register in the five bits from `LOW` up.
pub(crate) fn register<const LOW: u32>(word: u32) -> Register
    requires within { LOW < 28 }
    ensures value { result ≡ register (field (LOW + 4) LOW word) }
{
    Register::from_low_bits(bit_field(word, LOW + 4, LOW))
}

/// The CSR number in field A.
pub(crate) fn csr_a(word: u32) -> CsrNumber
    ensures value { result ≡ csr_a word }
{
    CsrNumber::from_low_bits(bit_field(word, A + 4, A))
}

/// The low 16 bits.
pub(crate) fn low_half(word: u32) -> u16
    ensures value { result ≡ low_half word }
{
    bit_field(word, 15, 0) as u16
}
