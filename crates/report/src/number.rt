// Writes a count in decimal.
ghost use Rattle.std.specs.Prelude.{◌≡◌, IfOk, string_bytes, decimal};
ghost use Rattle.report.specs.Numeral.{WritesDecimal};

use std::alloc::{AllocError, Global};

// The digits of the tenth part, and then the last one.
// By recursion on the tenth part: the project's rule for the routine that prints counts.
pub fn decimal(heap: Global, n: u64) -> Result<String, AllocError>
    ensures value { IfOk result (λ t. string_bytes t ≡ decimal n) }
    ensures reads { IfOk result (λ t. WritesDecimal n (string_bytes t)) }
{
    let mut text = if n < 10 {
        String::new(heap)
    } else {
        decimal(heap, n / 10)?
    };
    text.push(char::from(b'0' + (n % 10) as u8))?;
    Ok(text)
}
