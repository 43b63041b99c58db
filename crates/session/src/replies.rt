// A line for each reply: the call, and what it answered, or why it was turned down.
use report::Outcome;
use script::Reply;
use std::fmt;

// A reply, and its text.
#[derive(Clone, Copy)]
pub(crate) struct Told(pub(crate) Reply);

impl fmt::Display for Told {
    fn fmt<W: fmt::Write>(&self, f: &mut fmt::Formatter<W>) -> fmt::Result {
        match self.0 {
            Reply::Load(Ok(count)) => write!(f, "load,{count}"),
            Reply::Load(Err(refusal)) => {
                let cause = refusal.cause.number();
                let place = refusal.place;
                write!(f, "load,refused,{cause},{place}")
            }
            Reply::Lines(Ok(())) => write!(f, "lines"),
            Reply::Lines(Err(refused)) => write!(f, "lines,refused,{}", refused.number()),
            Reply::Look(Ok(byte)) => write!(f, "look,{byte:02X}"),
            Reply::Look(Err(fault)) => {
                let cause = fault.cause.number();
                let address = fault.home.address;
                let layer = fault.home.layer.number();
                write!(f, "look,refused,{cause},{address:08X},{layer}")
            }
            Reply::Show(Ok(value)) => write!(f, "show,{value:08X}"),
            Reply::Show(Err(refused)) => write!(f, "show,refused,{}", refused.number()),
            Reply::Step(answer) => {
                let outcome = Outcome::from(answer);
                write!(f, "step,{},{:08X}", outcome.letter(), outcome.value())
            }
            Reply::Run {
                done,
                taken,
                ending,
            } => write!(f, "run,{done},{taken},{ending}"),
        }
    }
}
