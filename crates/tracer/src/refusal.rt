// Why an image is not traced.
ghost use Rattle.std.specs.Prelude.{◌≡◌};
ghost use Rattle.tracer.specs.Refusals.{number_of, place_of};
ghost use Rattle.tracer.specs.declared.refusal.Refusal.TheVariants.{Image};

// How many bytes an image may have.
pub const LONGEST: usize = 65536;

/// The image has more bytes than `LONGEST` and was not looked at; or the board turned it down.
#[derive(Clone, Copy)]
pub(crate) enum Refusal {
    TooLong,
    Image(image::Refusal),
}

impl From<image::Refusal> for Refusal {
    ghost from_gives = { λ refusal told. told ≡ Image refusal };

    fn from(refused: image::Refusal) -> Refusal {
        Refusal::Image(refused)
    }
}

impl Refusal {
    // A method, and no `From`: it is asked for by that name.
    pub(crate) fn number(self) -> u32
        ensures value { result ≡ number_of self }
    {
        match self {
            Refusal::TooLong => 0,
            Refusal::Image(refusal) => refusal.cause.number(),
        }
    }

    // The place in the image that the refusal names.
    pub(crate) fn place(self) -> usize
        ensures value { result ≡ place_of self }
    {
        match self {
            Refusal::TooLong => LONGEST,
            Refusal::Image(refusal) => refusal.place,
        }
    }
}
