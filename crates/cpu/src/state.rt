// Reading and writing a processor's registers, and the state that power gives.
ghost use Rattle.std.specs.Prelude.{◌≡◌};
ghost use Rattle.cpu.specs.State.{base_of, reset, reg, set_reg, counted, with_status, with_ip};

use crate::config::Config;
use crate::enable::Enable;
use crate::processor::{Processor, Status};
use isa::Register;

// A base keeps no low byte.
pub(crate) fn base_of(value: u32) -> u32
    ensures { result ≡ base_of value }
{
    value / 256 * 256
}

impl Processor {
    /// A processor as power gives it: PC and EBA at EBA's reset value, DEBA at its own, registers as given, all else 0.
    pub fn new(config: Config, registers: [u32; 32]) -> Processor
        ensures state { result ≡ reset config registers }
    {
        let eba = base_of(config.eba);
        let deba = base_of(config.deba);
        Processor {
            config,
            registers,
            pc: eba,
            status: Status {
                enable: Enable {
                    ie: false,
                    eie: false,
                    bie: false,
                },
                im: 0,
                ip: 0,
                eba,
                deba,
                remap: false,
                cc: 0,
                breakpoints: [0; 4],
            },
            outside: 0,
        }
    }

    pub fn pc(&self) -> u32
        ensures value { result ≡ self.now.pc }
    {
        self.pc
    }

    pub fn get(&self, register: Register) -> u32
        ensures value { result ≡ reg self.now register }
    {
        let index = register.index();
        self.registers[index]
    }

    pub(crate) fn set(&mut self, register: Register, value: u32)
        ensures state { self.new ≡ set_reg self.old register.number value }
    {
        self.registers[register.index()] = value;
    }

    /// The cycle counter grows by one.
    pub fn count(&mut self)
        ensures state { self.new ≡ counted self.old }
    {
        self.status.cc = self.status.cc.wrapping_add(1);
    }

    /// The pending lines become the ones remembered.
    pub fn remember(&mut self, pend: u32)
        ensures state { self.new ≡ with_status self.old (with_ip self.old.status pend) }
    {
        self.status.ip = pend;
    }
}
