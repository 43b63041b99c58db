// Reads upper-case hexadecimal digits.
ghost use Rattle.std.specs.Prelude.{◌≡◌, ◌≤◌, [], ◌∷◌};
ghost use Rattle.hex_text.specs.Digits.{is_hex_digit, hex_digit_value, hex_number, hex_number_in, Undoes};

// What one digit stands for.
fn digit(byte: u8) -> Option<u8>
    ensures value { result ≡ hex_digit_value byte }
{
    match byte {
        b'0'..=b'9' => Some(byte - b'0'),
        b'A'..=b'F' => Some(byte - b'A' + 10),
        _ => None,
    }
}

// Whether the byte writes a digit.
pub fn is_digit(byte: u8) -> bool
    ensures value { result ≡ is_hex_digit byte }
{
    digit(byte).is_some()
}

// The number that exactly `COUNT` digits write.
fn number<const COUNT: usize>(digits: &[u8]) -> Option<u32>
    requires { COUNT ≤ 8 }
    ensures value { result ≡ hex_number_in COUNT digits.now }
    ensures inverse { Undoes COUNT digits.now result }
{
    if digits.len() != COUNT {
        return None;
    }
    let mut number = 0u32;
    for b in digits {
        number = 16 * number + u32::from(digit(*b)?);
    }
    Some(number)
}

// The byte that two digits write, the high one first.
pub fn byte(high: u8, low: u8) -> Option<u8>
    ensures value { result ≡ hex_number (high ∷ low ∷ []) }
    ensures inverse { Undoes 2 (high ∷ low ∷ []) result }
{
    let number = number::<2>(&[high, low])?;
    Some(number as u8)
}

// The number that exactly eight digits write.
pub fn word(digits: &[u8]) -> Option<u32>
    ensures value { result ≡ hex_number_in 8 digits.now }
    ensures inverse { Undoes 8 digits.now result }
{
    number::<8>(digits)
}
