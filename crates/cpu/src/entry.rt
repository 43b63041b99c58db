// Entering an exception: the PC and the enable bit are saved, and the handler is next.
ghost use Rattle.std.specs.Prelude.{◌≡◌};
ghost use Rattle.cpu.specs.Entry.{base, handler, entered};
ghost use Rattle.cpu.specs.Enable.{saved_by_exception, saved_by_breakpoint};
ghost use Rattle.cpu.specs.Exception.{exception_number, is_breakpoint, stop_number};

use crate::answer::Stop;
use crate::enable::Enable;
use crate::exception::Exception;
use crate::processor::Processor;
use crate::unit::Unit;

// The numbers are methods, and no `From`: they are asked for by that name.
impl Exception {
    pub fn number(self) -> u8
        ensures value { result ≡ exception_number self }
    {
        match self {
            Exception::Breakpoint(_) => 1,
            Exception::FetchFault(_) => 2,
            Exception::DataFault(_) => 4,
            Exception::DivideByZero => 5,
            Exception::Interrupt(_) => 6,
            Exception::SystemCall => 7,
        }
    }

    // By `matches!`: the case carries a value.
    fn is_breakpoint(self) -> bool
        ensures { result ≡ is_breakpoint self }
    {
        matches!(self, Exception::Breakpoint(_))
    }
}

impl Stop {
    pub fn number(self) -> u8
        ensures value { result ≡ stop_number self }
    {
        self as u8
    }
}

impl Enable {
    fn save_for_exception(&mut self)
        ensures { self.new ≡ saved_by_exception self.old }
    {
        self.eie = self.ie;
        self.ie = false;
    }

    fn save_for_breakpoint(&mut self)
        ensures { self.new ≡ saved_by_breakpoint self.old }
    {
        self.bie = self.ie;
        self.ie = false;
    }
}

impl Processor {
    fn base(&self, exception: Exception) -> u32
        ensures { result ≡ base self.now exception }
    {
        if self.config.has(Unit::Debug) && (exception.is_breakpoint() || self.status.remap) {
            self.status.deba
        } else {
            self.status.eba
        }
    }

    fn handler(&self, exception: Exception) -> u32
        ensures { result ≡ handler self.now exception }
    {
        self.base(exception)
            .wrapping_add(32 * u32::from(exception.number()))
    }

    /// Breaks off at the PC, and goes on in the exception's handler.
    pub fn enter(&mut self, exception: Exception)
        ensures state { self.new ≡ entered self.old exception }
    {
        let handler = self.handler(exception);
        if exception.is_breakpoint() {
            self.registers[31] = self.pc;
            self.status.enable.save_for_breakpoint();
        } else {
            self.registers[30] = self.pc;
            self.status.enable.save_for_exception();
        }
        self.pc = handler;
    }
}
