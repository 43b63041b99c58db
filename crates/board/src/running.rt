// Runs of steps. What a run answers is a tuple of plain numbers by the project's rules, the last 0 or the number of the stop.
ghost use Rattle.std.specs.Prelude.{◌≡◌};
ghost use Rattle.cpu.specs.Exception.{stop_number};
ghost use Rattle.board.specs.Machine.{seen};
ghost use Rattle.board.specs.Run.{run_steps, one_done, one_taken, total, ending, last_from};

use crate::machine::Board;
use bus::Bus;
use cpu::{Answer, Stop};

// What a run answers whose last step stopped: that step is counted in neither number.
fn stopped_run(done: u32, taken: u32, stop: Stop) -> (u32, u32, u32)
    ensures { result ≡ (done, taken, stop_number stop) }
{
    (done, taken, stop.number().into())
}

impl<B: Bus> Board<B> {
    /// Makes steps until the budget is made or one stops: how many instructions were done, how many exceptions taken, and 0 or the number of the stop.
    pub fn run(&mut self, budget: u32) -> (u32, u32, u32)
        requires { B.Bus.sound self.old.bus }
        ensures sound { B.Bus.sound self.new.bus }
        ensures state { seen B.Bus.means self.new ≡ last_from (seen B.Bus.means self.old) (run_steps B.Bus.rules budget (seen B.Bus.means self.old)) }
        ensures done { result.0 ≡ total one_done (run_steps B.Bus.rules budget (seen B.Bus.means self.old)) }
        ensures taken { result.1 ≡ total one_taken (run_steps B.Bus.rules budget (seen B.Bus.means self.old)) }
        ensures ending { result.2 ≡ ending (run_steps B.Bus.rules budget (seen B.Bus.means self.old)) }
    {
        let mut done = 0;
        let mut taken = 0;
        for made in 0..budget {
            match self.step() {
                Answer::Done(_) => done += 1,
                Answer::Taken(_) => taken += 1,
                Answer::Stopped { stop, .. } => return stopped_run(done, taken, stop),
            }
        }
        (done, taken, 0)
    }
}
