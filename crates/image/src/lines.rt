// Goes over the lines of an image, each with its place.
ghost use Rattle.std.specs.Prelude.{◌≡◌, ◌≤◌, length};

use crate::cut::line_at;

// The lines from `place` on that a line feed ends.
#[derive(Clone, Copy)]
pub struct Lines<'a> {
    image: &'a [u8],
    pub(crate) place: usize,
    ghost within: { place ≤ length image.now },
}

impl<'a> Lines<'a> {
    pub fn new(image: &'a [u8]) -> Self
        ensures start { result.place ≡ 0 }
        ensures whole { result.image.now ≡ image.now }
    {
        Lines { image, place: 0 }
    }
}

impl<'a> Iterator for Lines<'a> {
    ghost use Rattle.std.specs.Prelude.{◌-◌};
    ghost use Rattle.std.specs.Iterator.{at_most};
    ghost use Rattle.image.specs.Walk.{WalksOn};

    type Item = (usize, &'a [u8]);

    ghost next_gives = { WalksOn };

    ghost remaining = { λ s. at_most (length s.image.now - s.place) };

    fn next(&mut self) -> Option<(usize, &'a [u8])> {
        let place = self.place;
        let line = line_at(self.image, place)?;
        self.place += line.len() + 1;
        Some((place, line))
    }
}
