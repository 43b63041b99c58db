// The low bits of a number, and the field values that they say.
ghost use Rattle.std.specs.Prelude.{◌≡◌, ◌%◌, ◌^◌, ◌<◌};
ghost use Rattle.isa.specs.Fields.{register, csr, amount, offset};

use crate::csr_number::CsrNumber;
use crate::offset26::Offset26;
use crate::register::Register;
use crate::shift_amount::ShiftAmount;

/// The low `width` bits of a number.
pub(crate) fn low_bits(bits: u32, width: u32) -> u32
    requires within { width < 32 }
    ensures value { result ≡ bits % 2 ^ width }
{
    bits & ((1 << width) - 1)
}

// Four types, so that the number of a CSR cannot stand where a register's is meant.

impl Register {
    pub fn from_low_bits(bits: u32) -> Register
        ensures value { result ≡ register bits }
    {
        let number = low_bits(bits, 5) as u8;
        Register { number }
    }
}

impl CsrNumber {
    pub fn from_low_bits(bits: u32) -> CsrNumber
        ensures value { result ≡ csr bits }
    {
        let number = low_bits(bits, 5) as u8;
        CsrNumber { number }
    }
}

impl ShiftAmount {
    pub fn from_low_bits(bits: u32) -> ShiftAmount
        ensures value { result ≡ amount bits }
    {
        let places = low_bits(bits, 5) as u8;
        ShiftAmount { places }
    }
}

impl Offset26 {
    pub fn from_low_bits(bits: u32) -> Offset26
        ensures value { result ≡ offset bits }
    {
        let bits = low_bits(bits, 26);
        Offset26 { bits }
    }
}
