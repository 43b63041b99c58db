// Cuts an image at its line feeds.
ghost use Rattle.std.specs.Prelude.{◌≡◌, ◌==◌, position};
ghost use Rattle.std.specs.Option.{option_map};
ghost use Rattle.image.specs.Lines.{LineAt};

fn first_feed(bytes: &[u8]) -> Option<usize>
    ensures value { result ≡ position (λ b. b == 10) bytes.now }
{
    bytes.iter().position(|byte| *byte == b'\n')
}

// The line that begins at `place`, without its line feed, or none where no line feed follows.
#[tactic(auto, using(crate::proofs::Cutting::no_line))]
pub fn line_at(image: &[u8], place: usize) -> Option<&[u8]>
    ensures value { LineAt image.now place (option_map (λ x. x.now) result) }
{
    let rest = image.get(place..)?;
    let end = first_feed(rest)?;
    Some(&rest[..end])
}
