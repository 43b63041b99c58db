// The number of one of the 32 general registers.
ghost use Rattle.std.specs.Prelude.{◌≡◌, ◌<◌};

#[derive(Clone, Copy, PartialEq, Eq)]
pub struct Register {
    pub number: u8,
    ghost within: { number < 32 },
}

impl Register {
    /// The register's place in an array of 32.
    pub fn index(self) -> usize
        ensures value { result ≡ self.number }
        ensures within { result < 32 }
    {
        usize::from(self.number)
    }
}
