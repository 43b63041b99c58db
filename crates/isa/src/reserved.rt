// The refusal of a reserved word. Its number is a method, and no `From`: it is asked for by that name.
ghost use Rattle.std.specs.Prelude.{◌≡◌};
ghost use Rattle.isa.specs.Refusal.{refusal_number};

#[derive(Clone, Copy, PartialEq, Eq)]
pub struct Reserved;

impl Reserved {
    /// The number of the refusal.
    pub fn number(self) -> u8
        ensures value { result ≡ refusal_number self }
    {
        8
    }
}
