// A fork: two buses side by side, the low one below a split address and the high one from there on.
ghost use Rattle.std.specs.Prelude.{◌≡◌, ◌*◌, ◌/◌, ◌%◌};
ghost use Rattle.bus.specs.Fork.{Both, both, fork_rules};
ghost use Rattle.bus.specs.ForkLaws.{fork_laws};

use crate::fault::Fault;
use crate::interface::Bus;
use crate::kind::Kind;
use crate::size::Size;

#[derive(Drop)]
pub struct Fork<L, H> {
    low: L,
    high: H,
    split: u32,
    ghost aligned: { split % 4 ≡ 0 },
}

impl<L, H> Fork<L, H> {
    // A fork at a split, whose low two bits are cleared.
    pub fn new(low: L, high: H, split: u32) -> Fork<L, H>
        ensures low { result.low ≡ low }
        ensures high { result.high ≡ high }
        ensures split { result.split ≡ split / 4 * 4 }
    {
        Fork {
            low,
            high,
            split: split / 4 * 4,
        }
    }
}

impl<L: Bus, H: Bus> Bus for Fork<L, H> {
    ghost Mean = { Both L.Bus.Mean H.Bus.Mean };

    ghost rules = { fork_rules L.Bus.rules H.Bus.rules };

    ghost means = { λ f. both f.split (L.Bus.means f.low) (H.Bus.means f.high) };

    ghost sound = { λ f. L.Bus.sound f.low × H.Bus.sound f.high };

    ghost lawful = { fork_laws L.Bus.rules H.Bus.rules L.Bus.lawful H.Bus.lawful };

    fn kind(&self, address: u32) -> Kind {
        if address < self.split {
            self.low.kind(address)
        } else {
            self.high.kind(address - self.split)
        }
    }

    fn lines(&self) -> u32 {
        self.low.lines() | self.high.lines()
    }

    fn read(&mut self, size: Size, address: u32) -> Result<u32, Fault> {
        let value = if address < self.split {
            self.low.read(size, address)?
        } else {
            self.high.read(size, address - self.split)?
        };
        Ok(value)
    }

    fn write(&mut self, size: Size, address: u32, value: u32) -> Result<(), Fault> {
        if address < self.split {
            self.low.write(size, address, value)?;
        } else {
            self.high.write(size, address - self.split, value)?;
        }
        Ok(())
    }

    fn tick(&mut self) {
        self.low.tick();
        self.high.tick();
    }
}
