// A processor and the bus that it is on. Contracts see it by `seen B.Bus.means`, and not by a model: the `Value` of a model cannot yet name a member of a bound.
use cpu::Processor;

#[derive(Drop)]
pub struct Board<B> {
    pub(crate) processor: Processor,
    pub(crate) bus: B,
}
