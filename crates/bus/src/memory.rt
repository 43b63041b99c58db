// Memory over the caller's bytes: a RAM, or a ROM, which no write changes.
ghost use Rattle.std.specs.Prelude.{◌≡◌, ℕ, List};
ghost use Rattle.bus.specs.Block.{memory_rules, memory_kind, memory_layer};
ghost use Rattle.std.proofs.Common.{rules};

use crate::fault::{Fault, Layer};
use crate::interface::Bus;
use crate::kind::Kind;
use crate::region::Region;
use crate::size::Size;

#[derive(Drop)]
pub struct Memory<const WRITABLE: bool> {
    bytes: Vec<u8>,
}

pub type Ram = Memory<true>;

pub type Rom = Memory<false>;

impl<const WRITABLE: bool> Memory<WRITABLE> {
    pub fn new(bytes: Vec<u8>) -> Memory<WRITABLE>
        ensures meaning { result.bytes.items ≡ bytes.items }
    {
        Memory { bytes }
    }

    fn region() -> Region
        ensures { result ≡ record { kind = memory_kind WRITABLE; layer = memory_layer WRITABLE } }
    {
        if WRITABLE {
            Region {
                kind: Kind::Memory,
                layer: Layer::Ram,
            }
        } else {
            Region {
                kind: Kind::Rom,
                layer: Layer::Rom,
            }
        }
    }
}

impl<const WRITABLE: bool> Bus for Memory<WRITABLE> {
    ghost Mean = { List ℕ };

    ghost rules = { memory_rules WRITABLE };

    ghost means = { λ s. s.bytes.items };

    ghost sound = { λ _. Unit {0} };

    ghost lawful = { Prim.search rules };

    fn kind(&self, address: u32) -> Kind {
        Self::region().kind_at(&self.bytes, address)
    }

    fn lines(&self) -> u32 {
        0
    }

    fn read(&mut self, size: Size, address: u32) -> Result<u32, Fault> {
        Self::region().read(&self.bytes, size, address)
    }

    fn write(&mut self, size: Size, address: u32, value: u32) -> Result<(), Fault> {
        Self::region().write(&mut self.bytes, size, address, value)
    }

    fn tick(&mut self) {}
}
