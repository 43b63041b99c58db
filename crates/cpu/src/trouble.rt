// A bus fault as a trouble of the processor, and a trouble as the exception that it raises.
ghost use Rattle.std.specs.Prelude.{◌≡◌};
ghost use Rattle.cpu.specs.Exception.{raised};
ghost use Rattle.cpu.specs.declared.reason.Trouble.TheVariants.{Bus as FromBus};

use crate::exception::Exception;
use crate::phase::Phase;
use crate::reason::Trouble;
use bus::Fault;

impl From<Fault> for Trouble {
    ghost from_gives = { λ f r. r ≡ FromBus f };

    fn from(fault: Fault) -> Trouble {
        Trouble::Bus(fault)
    }
}

impl Trouble {
    /// The exception that a trouble raises in a phase of the step.
    pub fn raised(self, during: Phase) -> Exception
        ensures value { result ≡ raised self during }
    {
        match (self, during) {
            (Trouble::Bus(fault), Phase::Fetching) => Exception::FetchFault(fault),
            (Trouble::Bus(fault), Phase::Executing) => Exception::DataFault(fault),
            (Trouble::Divisor, _) => Exception::DivideByZero,
            (Trouble::Break, _) => Exception::Breakpoint(None),
            (Trouble::Scall, _) => Exception::SystemCall,
        }
    }
}
