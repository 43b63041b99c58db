// Reading and writing the control and status registers.
ghost use Rattle.std.specs.Prelude.{◌≡◌, ◌<◌};
ghost use Rattle.cpu.specs.Csr.{csr_named, csr_read, csr_written};
ghost use Rattle.cpu.specs.Enable.{enable_word, enable_of};

use crate::csr::Csr;
use crate::enable::Enable;
use crate::field::has_bit;
use crate::processor::Processor;
use crate::state::base_of;
use crate::unit::Unit;
use crate::vetting::breakpoint_count;
use isa::CsrNumber;

// The register that a number names.
impl From<CsrNumber> for Csr {
    ghost from_gives = { λ csr named. named ≡ csr_named csr.number };

    fn from(csr: CsrNumber) -> Csr {
        match csr.number {
            0x00 => Csr::Ie,
            0x01 => Csr::Im,
            0x02 => Csr::Ip,
            0x05 => Csr::Cc,
            0x06 => Csr::Cfg,
            0x07 => Csr::Eba,
            0x08 => Csr::Dc,
            0x09 => Csr::Deba,
            0x10 => Csr::Breakpoint(0),
            0x11 => Csr::Breakpoint(1),
            0x12 => Csr::Breakpoint(2),
            0x13 => Csr::Breakpoint(3),
            _ => Csr::Other,
        }
    }
}

// The word of IE.
impl From<Enable> for u32 {
    ghost from_gives = { λ enable word. word ≡ enable_word enable };

    fn from(enable: Enable) -> u32 {
        u32::from(enable.ie) + 2 * u32::from(enable.eie) + 4 * u32::from(enable.bie)
    }
}

impl From<u32> for Enable {
    ghost from_gives = { λ word enable. enable ≡ enable_of word };

    fn from(word: u32) -> Enable {
        Enable {
            ie: has_bit(0, word),
            eie: has_bit(1, word),
            bie: has_bit(2, word),
        }
    }
}

impl Processor {
    /// What a control and status register reads.
    pub fn read_csr(&self, csr: Csr) -> u32
        ensures value { result ≡ csr_read self.now csr }
    {
        match csr {
            Csr::Ie => u32::from(self.status.enable),
            Csr::Im => self.status.im,
            Csr::Ip => self.status.ip,
            Csr::Cc if self.config.has(Unit::CycleCounter) => self.status.cc,
            Csr::Cfg => self.config.cfg,
            Csr::Eba => self.status.eba,
            Csr::Deba if self.config.has(Unit::Debug) => self.status.deba,
            Csr::Cc | Csr::Deba | Csr::Dc | Csr::Breakpoint(_) | Csr::Other => 0,
        }
    }

    /// Writes a control and status register.
    pub fn write_csr(&mut self, csr: Csr, value: u32)
        ensures state { self.new ≡ csr_written self.old csr value }
    {
        match csr {
            Csr::Ie => self.status.enable = Enable::from(value),
            Csr::Im => self.status.im = value & self.config.mask,
            Csr::Ip => self.status.ip &= !value,
            Csr::Eba => self.status.eba = base_of(value),
            Csr::Dc if self.config.has(Unit::Debug) => self.status.remap = has_bit(1, value),
            Csr::Deba if self.config.has(Unit::Debug) => self.status.deba = base_of(value),
            Csr::Breakpoint(index) => self.write_breakpoint(index, value),
            Csr::Dc | Csr::Deba | Csr::Cc | Csr::Cfg | Csr::Other => {}
        }
    }

    fn write_breakpoint(&mut self, index: u8, value: u32)
        ensures { self.new ≡ csr_written self.old (Csr.Breakpoint index) value }
    {
        if self.config.has(Unit::Debug)
            && index < 4
            && u32::from(index) < breakpoint_count(self.config.cfg)
        {
            self.status.breakpoints[usize::from(index)] = value - value / 2 % 2 * 2;
        }
    }
}
