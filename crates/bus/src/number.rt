// The numbers that causes and layers go by. Methods, and no `From`: at a call it is the number that is asked for, by that name.
ghost use Rattle.std.specs.Prelude.{◌≡◌};
ghost use Rattle.bus.specs.Number.{cause_number, layer_number};

use crate::fault::{Cause, Layer};

impl Cause {
    pub fn number(self) -> u8
        ensures value { result ≡ cause_number self }
    {
        self as u8
    }
}

impl Layer {
    pub fn number(self) -> u8
        ensures value { result ≡ layer_number self }
    {
        self as u8
    }
}
