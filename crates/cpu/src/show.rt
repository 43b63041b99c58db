// Registers by index: the project's rules number them so for whoever shows one.
ghost use Rattle.std.specs.Prelude.{◌≡◌, if◌then◌else◌, Some, None, nat_lt};
ghost use Rattle.cpu.specs.Show.{shown};

use crate::processor::Processor;

impl Processor {
    /// The register of an index: 0 to 31, then PC, IE, IM, IP, EBA, DEBA, DC and CC, and from 40 to 43 the breakpoint registers.
    pub fn register_at(&self, index: u32) -> Option<u32>
        ensures value { result ≡ (if nat_lt index 44 then Some (shown self.now index) else None) }
    {
        match index {
            0..=31 => Some(self.registers[index as usize]),
            32 => Some(self.pc),
            33 => Some(u32::from(self.status.enable)),
            34 => Some(self.status.im),
            35 => Some(self.status.ip),
            36 => Some(self.status.eba),
            37 => Some(self.status.deba),
            38 => Some(2 * u32::from(self.status.remap)),
            39 => Some(self.status.cc),
            40..=43 => Some(self.status.breakpoints[(index - 40) as usize]),
            _ => None,
        }
    }
}
