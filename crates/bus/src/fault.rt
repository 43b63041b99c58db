// Why a bus turns an access down, and where.
ghost use Rattle.std.specs.Prelude.{◌≡◌};
ghost use Rattle.bus.specs.Block.{home_in};
ghost use Rattle.bus.specs.Rules.{fault};

#[derive(Clone, Copy, Debug, PartialEq, Eq)]
pub enum Layer {
    Ram = 1,
    Rom = 2,
    Timer = 3,
    Port = 4,
}

// An address as the bus at the bottom sees it, with that bus's layer.
#[derive(Clone, Copy, Debug, PartialEq, Eq)]
pub struct Home {
    pub address: u32,
    pub layer: Layer,
}

#[derive(Clone, Copy, Debug, PartialEq, Eq)]
pub enum Cause {
    Misaligned = 5,
    Unmapped = 6,
    ReadOnly = 7,
}

#[derive(Clone, Copy, Debug, PartialEq, Eq)]
pub struct Fault {
    pub cause: Cause,
    pub home: Home,
}

impl Layer {
    pub(crate) fn at(self, address: u32) -> Home
        ensures { result ≡ home_in self address }
    {
        Home {
            address,
            layer: self,
        }
    }
}

impl Home {
    pub(crate) fn fault(self, cause: Cause) -> Fault
        ensures { result ≡ fault cause self }
    {
        Fault { cause, home: self }
    }
}
