// Writes a number in upper-case hexadecimal digits.
ghost use Rattle.std.specs.Prelude.{◌≡◌, IfOk, Some, string_bytes};
ghost use Rattle.hex_text.specs.Digits.{hex_digits, hex_number_in};

use std::alloc::{AllocError, Global};

// The eight digits of `n`.
#[tactic(auto, using(crate::proofs::Padded::eight_printed, crate::proofs::Padded::eight_read))]
pub fn hexadecimal(heap: Global, n: u32) -> Result<String, AllocError>
    ensures value { IfOk result (λ t. string_bytes t ≡ hex_digits 8 n) }
    ensures reads { IfOk result (λ t. hex_number_in 8 (string_bytes t) ≡ Some n) }
{
    format!(in heap; "{n:08X}")
}
