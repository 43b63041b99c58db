// The timer: sixteen device bytes, the words period, count, control and status, and one line.
ghost use Rattle.std.specs.Prelude.{◌≡◌, ◌%◌, ◌<◌, false, length, replicate};
ghost use Rattle.bus.specs.Timer.{Clock, timer_rules, counted, raises};
ghost use Rattle.std.proofs.Common.{rules, arith};

use crate::block::{put_word, word_at};
use crate::fault::{Fault, Layer};
use crate::interface::Bus;
use crate::kind::Kind;
use crate::region::Region;
use crate::size::Size;

const PERIOD: usize = 0;

const COUNT: usize = 4;

const CONTROL: usize = 8;

const STATUS: usize = 12;

const REGION: Region = Region {
    kind: Kind::Device,
    layer: Layer::Timer,
};

#[derive(Drop)]
pub struct Timer {
    registers: [u8; 16],
    line: u32,
    high: bool,
    ghost whole: { length registers ≡ 16 },
    ghost within: { line < 32 },
}

impl Timer {
    // A timer on the line that the low five bits of a number name.
    pub fn new(number: u32) -> Timer
        ensures registers { result.registers ≡ replicate 16 0 }
        ensures line { result.line ≡ number % 32 }
        ensures high { result.high ≡ false }
    {
        Timer {
            registers: [0; 16],
            line: number % 32,
            high: false,
        }
    }

    fn count_down(&mut self)
        ensures registers { self.new.registers ≡ counted self.old.registers }
        ensures line { self.new.line ≡ self.old.line }
    {
        let count = word_at(&self.registers, COUNT);
        if count == 0 {
            let period = word_at(&self.registers, PERIOD);
            put_word(&mut self.registers, COUNT, period);
            put_word(&mut self.registers, STATUS, 1);
        } else {
            put_word(&mut self.registers, COUNT, count - 1);
        }
    }

    fn raised(&self) -> bool
        ensures { result ≡ raises self.now.registers }
    {
        word_at(&self.registers, STATUS) % 2 == 1 && word_at(&self.registers, CONTROL) / 2 % 2 == 1
    }
}

impl Bus for Timer {
    ghost Mean = { Clock };

    ghost rules = { timer_rules };

    ghost means = { λ s. record { registers = s.registers; line = s.line; high = s.high } };

    ghost sound = { λ _. Unit {0} };

    ghost lawful = { first_of (Prim.search rules, Prim.grind (arith, Self.row.coded.inj)) };

    fn kind(&self, address: u32) -> Kind {
        REGION.kind_at(&self.registers, address)
    }

    fn lines(&self) -> u32 {
        if self.high { 1 << self.line } else { 0 }
    }

    fn read(&mut self, size: Size, address: u32) -> Result<u32, Fault> {
        REGION.read(&self.registers, size, address)
    }

    fn write(&mut self, size: Size, address: u32, value: u32) -> Result<(), Fault> {
        REGION.write(&mut self.registers, size, address, value)
    }

    fn tick(&mut self) {
        if word_at(&self.registers, CONTROL) % 2 == 1 {
            self.count_down();
        }
        self.high = self.raised();
    }
}
