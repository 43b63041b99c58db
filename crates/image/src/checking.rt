// Checks an image line by line, before anything of it is written.
ghost use Rattle.std.specs.Prelude.{◌≡◌, length, drop, if◌then◌else◌, nat_eq, nat_lt};
ghost use Rattle.image.specs.Acceptance.{Accepts};
ghost use Rattle.image.specs.Checking.{refused, ended, on_memory, checked};
ghost use Rattle.image.specs.Lines.{lines_of};
ghost use Rattle.image.specs.Meaning.{answer_in, bytes_in, cause_number};
ghost use Rattle.image.specs.Memory.{memory_in};

use crate::bytes::Bytes;
use crate::line::Line;
use crate::lines::Lines;
use crate::read::read_line;
use crate::refusal::{Cause, Refusal};
use bus::{Bus, Kind};

fn is_memory<B: Bus>(bus: &B, address: u32) -> bool
    requires { B.Bus.sound bus.now }
    ensures value { result ≡ memory_in B.Bus.rules (B.Bus.means bus.now) address }
{
    bus.kind(address) == Kind::Memory
}

// Whether each of the bytes falls on memory, from `address` on.
#[tactic(auto, using(crate::proofs::Steps::byte_on, crate::proofs::Steps::byte_past, crate::proofs::Steps::byte_elsewhere))]
fn on_memory<B: Bus>(bus: &B, address: u32, bytes: Bytes) -> bool
    requires { B.Bus.sound bus.now }
    ensures value { result ≡ on_memory (memory_in B.Bus.rules (B.Bus.means bus.now)) address (bytes_in bytes) }
{
    for (at, _) in (u64::from(address)..).zip(bytes) {
        if at > u64::from(u32::MAX) || !is_memory(bus, at as u32) {
            return false;
        }
    }
    true
}

// The end line at `place`, which states a count, after `count` data lines. The place after it is `next`.
#[tactic(auto, using(crate::proofs::Steps::ended_before, crate::proofs::Steps::ended_at_end))]
fn check_end(
    image: &[u8],
    stated: u32,
    count: u64,
    place: usize,
    next: usize,
) -> Result<u32, Refusal>
    ensures answer { answer_in result ≡ (if nat_eq stated count then ended stated next (lines_of (drop next image.now)) else refused 13 place) }
{
    if u64::from(stated) != count {
        return Err(Cause::Ending.at(place));
    }
    if next < image.len() {
        return Err(Cause::Ending.at(next));
    }
    Ok(stated)
}

// Why an image whose lines stop at `place` is turned down: bytes follow that no line feed ends, or there is no end line.
fn unended(image: &[u8], place: usize) -> Cause
    ensures value { cause_number result ≡ (if nat_lt place (length image.now) then 11 else 13) }
{
    if place < image.len() {
        Cause::Form
    } else {
        Cause::Ending
    }
}

// The count of data lines of an image, or why and where it is turned down.
#[tactic(auto, using(crate::proofs::Acceptance::accepts, crate::proofs::Steps::lines_stop))]
pub fn check<B: Bus>(bus: &B, image: &[u8]) -> Result<u32, Refusal>
    requires { B.Bus.sound bus.now }
    ensures answer { answer_in result ≡ checked (memory_in B.Bus.rules (B.Bus.means bus.now)) image.now }
    ensures acceptance { Accepts (memory_in B.Bus.rules (B.Bus.means bus.now)) image.now (answer_in result) }
{
    // Taken one by one, since where the lines stop is asked for afterwards; counted beside, since the end line states how many data lines there are.
    let mut lines = Lines::new(image);
    let mut count = 0;
    while let Some((place, line)) = lines.next() {
        match read_line(line).ok_or(Cause::Form.at(place))? {
            Line::End(stated) => return check_end(image, stated, count, place, lines.place),
            Line::Data(found) => {
                if !on_memory(bus, found.address, found.bytes) {
                    return Err(Cause::Memory.at(place));
                }
            }
        }
        count += 1;
    }
    Err(unended(image, lines.place).at(lines.place))
}
