// Pending lines, interrupts and breakpoint registers.
ghost use Rattle.std.specs.Prelude.{◌≡◌, nat_le};
ghost use Rattle.cpu.specs.State.{with_outside};
ghost use Rattle.cpu.specs.Pending.{pending, interrupt_line, matches, breakpoint_hit};

use crate::processor::Processor;

fn is_match(pc: u32, breakpoint: u32) -> bool
    ensures { result ≡ matches pc breakpoint }
{
    breakpoint % 2 == 1 && breakpoint / 4 == pc / 4
}

impl Processor {
    /// The lines pending, given the bus's line word.
    pub fn pending(&self, lines: u32) -> u32
        ensures value { result ≡ pending self.now lines }
    {
        self.status.ip | ((lines | self.outside) & self.config.mask)
    }

    /// The line that interrupts: the lowest both pending and enabled, if interrupts are on.
    pub fn interrupt(&self, pend: u32) -> Option<u8>
        ensures value { result ≡ interrupt_line self.now pend }
    {
        let waiting = pend & self.status.im;
        // Lines wait more seldom than interrupts are on.
        if waiting != 0 && self.status.enable.ie {
            Some(waiting.trailing_zeros() as u8)
        } else {
            None
        }
    }

    /// The first breakpoint register that matches the PC.
    pub fn breakpoint(&self) -> Option<u8>
        ensures value { result ≡ breakpoint_hit self.now }
    {
        let [a, b, c, d] = self.status.breakpoints;
        // One test of all four, since most often none is on.
        if (a | b | c | d) % 2 == 0 {
            return None;
        }
        self.status
            .breakpoints
            .iter()
            .position(|breakpoint| is_match(self.pc, *breakpoint))
            .map(|index| index as u8)
    }

    /// Whether a line word has no bit of a line that the processor does not have.
    pub fn knows_lines(&self, word: u32) -> bool
        ensures value { result ≡ nat_le word self.now.config.mask }
    {
        word <= self.config.mask
    }

    /// Sets the lines from outside the bus.
    pub fn set_outside(&mut self, word: u32)
        ensures state { self.new ≡ with_outside self.old word }
    {
        self.outside = word;
    }
}
