// Big-endian numbers in a block of bytes, by the places of their bytes: a slice made into an array would be no shorter.
ghost use Rattle.std.specs.Prelude.{◌≡◌, ◌+◌, ◌≤◌, length};
ghost use Rattle.bus.specs.Block.{bytes_in, patched, word_in, with_word};
ghost use Rattle.bus.specs.Bytes.{width, number, low_bytes};

use crate::size::Size;

// The number of this size that stands at a place.
pub(crate) fn number_at(bytes: &[u8], at: usize, size: Size) -> u32
    requires { at + width size ≤ length bytes.now }
    ensures { result ≡ number (bytes_in bytes.now at (width size)) }
{
    match size {
        Size::Byte => u32::from(bytes[at]),
        Size::Half => u32::from_be_bytes([0, 0, bytes[at], bytes[at + 1]]),
        Size::Word => word_at(bytes, at),
    }
}

pub(crate) fn word_at(bytes: &[u8], at: usize) -> u32
    requires { at + 4 ≤ length bytes.now }
    ensures { result ≡ word_in bytes.now at }
{
    u32::from_be_bytes([bytes[at], bytes[at + 1], bytes[at + 2], bytes[at + 3]])
}

// Puts the low bytes of a number at a place.
pub(crate) fn put_number(bytes: &mut [u8], at: usize, size: Size, value: u32)
    requires { at + width size ≤ length bytes.old }
    ensures { bytes.new ≡ patched bytes.old at (low_bytes size value) }
{
    let [_, _, c, d] = value.to_be_bytes();
    match size {
        Size::Byte => bytes[at] = d,
        Size::Half => {
            bytes[at] = c;
            bytes[at + 1] = d;
        }
        Size::Word => put_word(bytes, at, value),
    }
}

pub(crate) fn put_word(bytes: &mut [u8], at: usize, value: u32)
    requires { at + 4 ≤ length bytes.old }
    ensures { bytes.new ≡ with_word bytes.old at value }
{
    let [a, b, c, d] = value.to_be_bytes();
    bytes[at] = a;
    bytes[at + 1] = b;
    bytes[at + 2] = c;
    bytes[at + 3] = d;
}
