// One step of a board.
ghost use Rattle.std.specs.Prelude.{◌≡◌};
ghost use Rattle.isa.specs.Decode.{decoded};
ghost use Rattle.cpu.specs.State.{reset};
ghost use Rattle.board.specs.Alignment.{Aligned};
ghost use Rattle.board.specs.Counter.{counter_after, UnchangedByStop};
ghost use Rattle.board.specs.Execute.{executed};
ghost use Rattle.board.specs.Machine.{seen, machine};
ghost use Rattle.board.specs.Ready.{concluded};
ghost use Rattle.board.specs.Writers.{WritesOnly};
ghost use Rattle.board.specs.Step.{pend, noted, departed, takes, stops, if_decoded, if_executed, settled, fetched, stepped};

use crate::execute::allow;
use crate::halt::{Halt, Ready};
use crate::machine::Board;
use bus::{Bus, Size};
use cpu::{Answer, Config, Exception, Phase, Processor, Trouble};
use isa::Instruction;

impl<B: Bus> Board<B> {
    /// A board as power gives it.
    pub fn power(config: Config, registers: [u32; 32], bus: B) -> Board<B>
        requires { B.Bus.sound bus }
        ensures sound { B.Bus.sound result.bus }
        ensures state { seen B.Bus.means result ≡ machine (reset config registers) (B.Bus.means bus) }
        ensures aligned { Aligned result.processor }
    {
        Board {
            processor: Processor::new(config, registers),
            bus,
        }
    }

    /// The address of the next instruction.
    pub fn pc(&self) -> u32
        ensures value { result ≡ self.now.processor.pc }
    {
        self.processor.pc()
    }

    // How a step ends that does not stop: the counter grows, and the bus ticks.
    fn settle(&mut self)
        requires { B.Bus.sound self.old.bus }
        ensures sound { B.Bus.sound self.new.bus }
        ensures state { seen B.Bus.means self.new ≡ settled B.Bus.rules (seen B.Bus.means self.old) }
    {
        self.processor.count();
        self.bus.tick();
    }

    fn fetch(&mut self) -> Result<u32, Trouble>
        requires { B.Bus.sound self.old.bus }
        ensures sound { B.Bus.sound self.new.bus }
        ensures state { seen B.Bus.means self.new ≡ seen B.Bus.means self.old }
        ensures answer { result ≡ fetched B.Bus.rules (seen B.Bus.means self.old) }
    {
        let word = self.bus.read(Size::Word, self.processor.pc())?;
        Ok(word)
    }

    // The instruction at PC, where nothing halts the step before it.
    fn ready(&mut self, lines: u32) -> Result<Ready, Halt>
        requires sound { B.Bus.sound self.old.bus }
        requires lines { lines ≡ pend B.Bus.rules (seen B.Bus.means self.old) }
        ensures sound { B.Bus.sound self.new.bus }
        ensures state { seen B.Bus.means self.new ≡ seen B.Bus.means self.old }
        ensures step { concluded B.Bus.rules (seen B.Bus.means self.old) result ≡ stepped B.Bus.rules (seen B.Bus.means self.old) }
    {
        if let Some(index) = self.processor.breakpoint() {
            return Err(Exception::Breakpoint(Some(index)).into());
        }
        if let Some(line) = self.processor.interrupt(lines) {
            return Err(Exception::Interrupt(line).into());
        }
        let word = self
            .fetch()
            .map_err(|trouble| trouble.raised(Phase::Fetching))?;
        let instruction = Instruction::decode(word)?;
        allow(&self.processor, instruction)?;
        Ok(Ready { word, instruction })
    }

    // Breaks off at the PC and ends the step.
    fn depart(&mut self, exception: Exception) -> Answer
        requires { B.Bus.sound self.old.bus }
        ensures sound { B.Bus.sound self.new.bus }
        ensures state { seen B.Bus.means self.new ≡ departed B.Bus.rules (seen B.Bus.means self.old) exception }
        ensures answer { result ≡ Answer.Taken exception }
    {
        self.processor.enter(exception);
        self.settle();
        Answer::Taken(exception)
    }

    // The step itself, by its definition.
    fn make_step(&mut self) -> Answer
        requires { B.Bus.sound self.old.bus }
        ensures sound { B.Bus.sound self.new.bus }
        ensures state { seen B.Bus.means self.new ≡ (stepped B.Bus.rules (seen B.Bus.means self.old)).1 }
        ensures answer { result ≡ (stepped B.Bus.rules (seen B.Bus.means self.old)).0 }
    {
        let lines = self.processor.pending(self.bus.lines());
        match self.ready(lines) {
            Ok(ready) => {
                self.processor.remember(lines);
                match self.execute(ready.instruction) {
                    Ok(()) => {
                        self.settle();
                        Answer::Done(ready.word)
                    }
                    Err(trouble) => self.depart(trouble.raised(Phase::Executing)),
                }
            }
            Err(Halt::Exception(exception)) => {
                self.processor.remember(lines);
                self.depart(exception)
            }
            Err(Halt::Stop(stop)) => Answer::Stopped {
                stop,
                pc: self.processor.pc(),
            },
        }
    }

    /// One step: an instruction done, an exception taken, or a stop that changes nothing.
    pub fn step(&mut self) -> Answer
        requires { B.Bus.sound self.old.bus }
        ensures sound { B.Bus.sound self.new.bus }
        ensures state { seen B.Bus.means self.new ≡ (stepped B.Bus.rules (seen B.Bus.means self.old)).1 }
        ensures answer { result ≡ (stepped B.Bus.rules (seen B.Bus.means self.old)).0 }
        ensures counter { self.new.processor.status.cc ≡ counter_after result self.old.processor.status.cc }
        ensures stop { UnchangedByStop result (seen B.Bus.means self.old) (seen B.Bus.means self.new) }
        ensures aligned { Aligned self.old.processor → Aligned self.new.processor }
        ensures writes { WritesOnly result self.old.processor self.new.processor }
    {
        self.make_step()
    }
}
