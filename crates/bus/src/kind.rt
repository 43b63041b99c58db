// What lies at an address of a bus: nothing, ROM, memory or a device. Nothing is a kind too, and no `None`: a bus tells one of the four.
ghost use Rattle.std.specs.Prelude.{◌≡◌};
ghost use Rattle.bus.specs.Cache.{is_steady};

#[derive(Clone, Copy, Debug, PartialEq, Eq)]
pub enum Kind {
    Absent,
    Rom,
    Memory,
    Device,
}

impl Kind {
    // Whether no tick changes what lies there: two of the four kinds, which no `==` tells.
    pub(crate) fn is_steady(self) -> bool
        ensures { result ≡ is_steady self }
    {
        matches!(self, Kind::Rom | Kind::Memory)
    }
}
