// The size of an access: how many bytes a read or a write moves.
ghost use Rattle.std.specs.Prelude.{◌≡◌, ◌%◌, ◌==◌};
ghost use Rattle.bus.specs.Bytes.{width};

#[derive(Clone, Copy, Debug, PartialEq, Eq)]
pub enum Size {
    Byte,
    Half,
    Word,
}

impl Size {
    // Whether an address is a multiple of the number of bytes.
    pub fn is_aligned(self, address: u32) -> bool
        ensures value { result ≡ (address % width self == 0) }
    {
        match self {
            Size::Byte => true,
            Size::Half => address % 2 == 0,
            Size::Word => address % 4 == 0,
        }
    }
}
