// The number of a control and status register: five bits.
ghost use Rattle.std.specs.Prelude.{◌<◌};

#[derive(Clone, Copy, PartialEq, Eq)]
pub struct CsrNumber {
    pub number: u8,
    ghost within: { number < 32 },
}
