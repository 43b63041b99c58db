// The 26 bits that an immediate jump carries.
ghost use Rattle.std.specs.Prelude.{◌^◌, ◌<◌};

#[derive(Clone, Copy, PartialEq, Eq)]
pub struct Offset26 {
    pub bits: u32,
    ghost within: { bits < 2 ^ 26 },
}
