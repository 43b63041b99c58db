// Why an image is turned down, and where. A cause's number is a method, and no `From`: it is asked for by that name.
ghost use Rattle.std.specs.Prelude.{◌≡◌};
ghost use Rattle.image.specs.Meaning.{cause_number};

// A line has not the form of an image's lines; a byte would not fall on memory; or the end line is missing, miscounts or is not the last.
#[derive(Clone, Copy, Debug, PartialEq, Eq)]
pub enum Cause {
    Form = 11,
    Memory = 12,
    Ending = 13,
}

// The cause, and the place in the image that it names.
#[derive(Clone, Copy, Debug, PartialEq, Eq)]
pub struct Refusal {
    pub cause: Cause,
    pub place: usize,
}

impl Cause {
    pub fn number(self) -> u32
        ensures value { result ≡ cause_number self }
    {
        self as u32
    }

    // A refusal for this cause at a place.
    pub(crate) fn at(self, place: usize) -> Refusal
        ensures cause { result.cause ≡ self }
        ensures place { result.place ≡ place }
    {
        Refusal { cause: self, place }
    }
}
