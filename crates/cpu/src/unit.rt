// The optional units that the CFG word tells of.
ghost use Rattle.std.specs.Prelude.{◌≡◌};
ghost use Rattle.cpu.specs.Unit.{has_unit};

use crate::config::Config;
use crate::field::has_bit;

/// Each unit with its bit in CFG.
#[derive(Clone, Copy)]
pub(crate) enum Unit {
    Multiplier = 0,
    Divider = 1,
    Shifter = 2,
    SignExtension = 4,
    CycleCounter = 5,
    Debug = 8,
}

impl Config {
    pub(crate) fn has(&self, unit: Unit) -> bool
        ensures { result ≡ has_unit self.now unit }
    {
        has_bit(unit as u32, self.cfg)
    }
}
