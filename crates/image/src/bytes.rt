// The bytes of a data line, of which there are at most 32.
ghost use Rattle.std.specs.Prelude.{◌≡◌, ◌≤◌, take, drop};

// Those from `next` on are left to be given. The line need not stay: its digits are read once, and no slice of it could hold the bytes.
#[derive(Clone, Copy)]
pub struct Bytes {
    pub(crate) items: [u8; 32],
    pub(crate) count: usize,
    pub(crate) next: usize,
    ghost few: { count ≤ 32 },
    ghost within: { next ≤ count },
}

impl Bytes {
    pub fn as_slice(&self) -> &[u8]
        ensures value { result.now ≡ drop self.now.next (take self.now.count self.now.items) }
    {
        &self.items[self.next..self.count]
    }
}

impl Iterator for Bytes {
    ghost use Rattle.std.specs.Iterator.{YieldsFirst, item_count};
    ghost use Rattle.image.specs.Meaning.{bytes_in};

    type Item = u8;

    ghost next_gives = { YieldsFirst bytes_in };

    ghost remaining = { item_count bytes_in };

    fn next(&mut self) -> Option<u8> {
        let byte = *self.as_slice().first()?;
        self.next += 1;
        Some(byte)
    }
}
