// Reads a line of an image.
ghost use Rattle.std.specs.Prelude.{◌≡◌, ◌<◌, true, length};
ghost use Rattle.std.specs.Option.{option_map};
ghost use Rattle.image.specs.Inverse.{Undoes};
ghost use Rattle.image.specs.Meaning.{bytes_in, data_in, reading_in};
ghost use Rattle.image.specs.Reading.{has, starts_data, starts_end, payload, read_data, read_end, read_line};

use crate::bytes::Bytes;
use crate::line::{DataLine, Line};

// The 1 to 32 bytes that pairs of digits write.
fn read_bytes(digits: &[u8]) -> Option<Bytes>
    ensures value { option_map bytes_in result ≡ payload digits.now }
{
    let count = digits.len() / 2;
    if digits.len() % 2 != 0 || count == 0 || count > 32 {
        return None;
    }
    let mut items = [0; 32];
    // By place: the bytes are kept at theirs, and each digit is read once.
    for k in 0..count {
        items[k] = hex_text::byte(digits[2 * k], digits[2 * k + 1])?;
    }
    Some(Bytes {
        items,
        count,
        next: 0,
    })
}

// Whether the line has `byte` at `place`.
fn has(line: &[u8], place: usize, byte: u8) -> bool
    ensures value { result ≡ has line.now place byte }
{
    line.get(place) == Some(&byte)
}

// Whether the line has M and the two commas of a data line.
fn starts_data(line: &[u8]) -> bool
    ensures value { result ≡ starts_data line.now }
    ensures long { result ≡ true → 10 < length line.now }
{
    has(line, 0, b'M') && has(line, 1, b',') && has(line, 10, b',')
}

// Whether the line has E and the comma of an end line.
fn starts_end(line: &[u8]) -> bool
    ensures value { result ≡ starts_end line.now }
    ensures long { result ≡ true → 1 < length line.now }
{
    has(line, 0, b'E') && has(line, 1, b',')
}

// A line that begins with M, an address and a comma, and goes on with bytes.
fn read_data(line: &[u8]) -> Option<DataLine>
    ensures value { option_map data_in result ≡ read_data line.now }
{
    if !starts_data(line) {
        return None;
    }
    let address = hex_text::word(&line[2..10])?;
    let bytes = read_bytes(&line[11..])?;
    Some(DataLine { address, bytes })
}

// A line that begins with E and has a count.
#[tactic(auto, using(crate::proofs::Forms::end_parts))]
fn read_end(line: &[u8]) -> Option<u32>
    ensures value { result ≡ read_end line.now }
{
    if !starts_end(line) {
        return None;
    }
    hex_text::word(&line[2..])
}

// What the line is, or none where it is malformed. Its line feed does not belong to it.
#[tactic(auto, using(crate::proofs::Inverse::undoes))]
pub fn read_line(line: &[u8]) -> Option<Line>
    ensures value { reading_in result ≡ read_line line.now }
    ensures inverse { Undoes line.now (reading_in result) }
{
    if let Some(found) = read_data(line) {
        return Some(Line::Data(found));
    }
    Some(Line::End(read_end(line)?))
}
