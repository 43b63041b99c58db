// By how many places an immediate shift moves: five bits.
ghost use Rattle.std.specs.Prelude.{◌<◌};

#[derive(Clone, Copy, PartialEq, Eq)]
pub struct ShiftAmount {
    pub places: u8,
    ghost within: { places < 32 },
}
