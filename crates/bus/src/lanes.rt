// Parts of a word: the number that an access reads in it, and the word that an access leaves.
ghost use Rattle.std.specs.Prelude.{◌≡◌, ◌+◌, ◌%◌, ◌≤◌};
ghost use Rattle.bus.specs.Block.{bytes_in, patched};
ghost use Rattle.bus.specs.Bytes.{width, number, word_bytes, low_bytes};

use crate::block::{number_at, put_number};
use crate::size::Size;

pub(crate) fn part(word: u32, size: Size, address: u32) -> u32
    requires { address % 4 + width size ≤ 4 }
    ensures { result ≡ number (bytes_in (word_bytes word) (address % 4) (width size)) }
{
    match size {
        // What a fetch reads is the word as it is held, and wants no bytes.
        Size::Word => word,
        Size::Byte | Size::Half => {
            let bytes = word.to_be_bytes();
            number_at(&bytes, (address % 4) as usize, size)
        }
    }
}

pub(crate) fn merge(word: u32, size: Size, address: u32, value: u32) -> u32
    requires { address % 4 + width size ≤ 4 }
    ensures { result ≡ number (patched (word_bytes word) (address % 4) (low_bytes size value)) }
{
    let mut bytes = word.to_be_bytes();
    put_number(&mut bytes, (address % 4) as usize, size, value);
    u32::from_be_bytes(bytes)
}
