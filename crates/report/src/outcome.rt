// How a step ended, and what it gave: numbers, as the fields of a line say them, where an `Answer` names a fault too. Its cases carry values, so the tests are by `matches!`.
ghost use Rattle.std.specs.Prelude.{◌≡◌};
ghost use Rattle.report.specs.Outcomes.{letter, value_of, is_done, is_taken, is_stopped, outcome_of};

use cpu::Answer;

/// An instruction done, with its word; or the number of the exception that was taken, or of the refusal that the step stopped at.
#[derive(Clone, Copy, Debug, PartialEq, Eq)]
pub enum Outcome {
    Done(u32),
    Taken(u32),
    Stopped(u32),
}

impl From<Answer> for Outcome {
    ghost from_gives = { λ answer outcome. outcome ≡ outcome_of answer };

    fn from(answer: Answer) -> Outcome {
        match answer {
            Answer::Done(word) => Outcome::Done(word),
            Answer::Taken(exception) => Outcome::Taken(exception.number().into()),
            Answer::Stopped { stop, .. } => Outcome::Stopped(stop.number().into()),
        }
    }
}

impl Outcome {
    pub fn is_done(self) -> bool
        ensures value { result ≡ is_done self }
    {
        matches!(self, Outcome::Done(_))
    }

    pub fn is_taken(self) -> bool
        ensures value { result ≡ is_taken self }
    {
        matches!(self, Outcome::Taken(_))
    }

    pub fn is_stopped(self) -> bool
        ensures value { result ≡ is_stopped self }
    {
        matches!(self, Outcome::Stopped(_))
    }

    pub fn letter(self) -> &'static str
        ensures value { result.now ≡ letter self }
    {
        match self {
            Outcome::Done(_) => "D",
            Outcome::Taken(_) => "X",
            Outcome::Stopped(_) => "S",
        }
    }

    pub fn value(self) -> u32
        ensures value { result ≡ value_of self }
    {
        match self {
            Outcome::Done(word) => word,
            Outcome::Taken(number) | Outcome::Stopped(number) => number,
        }
    }
}
