// A cache: 256 words of the bus below, written through.
ghost use Rattle.std.specs.Prelude.{◌≡◌, ℕ, ◌/◌, ◌%◌, true, false, length, set, Some, None};
ghost use Rattle.bus.specs.Cache.{set_of, held_word, is_held, Right, held_after_read};
ghost use Rattle.bus.specs.Rules.{read_answer, write_answer, written};
ghost use Rattle.bus.specs.declared.line.Line.{Line as Entry};
ghost use Rattle.std.proofs.Common.{rules, arith};

use crate::fault::Fault;
use crate::interface::Bus;
use crate::kind::Kind;
use crate::lanes::{merge, part};
use crate::line::Line;
use crate::size::Size;

// What it holds is always what lies below, as `sound` says: each call leaves it so. An address names its line, so an array serves and nothing is searched.
#[derive(Drop)]
pub struct Cache<B> {
    below: B,
    lines: [Option<Line>; 256],
    ghost sets: { length lines ≡ 256 },
}

fn set_of(address: u32) -> usize
    ensures { result ≡ set_of address }
{
    (address / 4 % 256) as usize
}

// Makes a word held in place of its set's former one.
fn keep(lines: &mut [Option<Line>; 256], address: u32, word: u32)
    ensures { lines.new ≡ set lines.old (set_of address) (Some (record { tag = address / 4; word = word })) }
{
    lines[set_of(address)] = Some(Line {
        tag: address / 4,
        word,
    });
}

impl<B: Bus> Cache<B> {
    // A cache that holds nothing yet.
    pub fn new(below: B) -> Cache<B>
        requires { B.Bus.sound below }
        ensures below { result.below ≡ below }
        ensures right { Right B.Bus.rules (B.Bus.means below) result.lines }
        ensures held { (a : ℕ) → is_held result.lines a ≡ false }
    {
        Cache {
            below,
            lines: [None; 256],
        }
    }
}

impl<B> Cache<B> {
    // Whether the word of an address is held.
    pub fn held(&self, address: u32) -> bool
        ensures { result ≡ is_held self.now.lines address }
    {
        self.find(address).is_some()
    }

    fn find(&self, address: u32) -> Option<u32>
        ensures { result ≡ held_word self.now.lines address }
    {
        self.lines[set_of(address)]
            .filter(|line| line.tag == address / 4)
            .map(|line| line.word)
    }
}

impl<B: Bus> Bus for Cache<B> {
    ghost Mean = { B.Bus.Mean };

    ghost rules = { B.Bus.rules };

    ghost means = { λ c. B.Bus.means c.below };

    ghost sound = { λ c. B.Bus.sound c.below × Right B.Bus.rules (B.Bus.means c.below) c.lines };

    ghost lawful = { first_of (Prim.search rules, Prim.grind (arith, Self.row.coded.inj)) };

    fn kind(&self, address: u32) -> Kind {
        self.below.kind(address)
    }

    fn lines(&self) -> u32 {
        self.below.lines()
    }

    fn read(&mut self, size: Size, address: u32) -> Result<u32, Fault>
        requires { B.Bus.sound self.old.below × Right B.Bus.rules (B.Bus.means self.old.below) self.old.lines }
        ensures sound { B.Bus.sound self.new.below × Right B.Bus.rules (B.Bus.means self.new.below) self.new.lines }
        ensures meaning { B.Bus.means self.new.below ≡ B.Bus.means self.old.below }
        ensures answer { result ≡ read_answer B.Bus.rules (B.Bus.means self.old.below) size address }
        ensures held { (b : ℕ) → is_held self.new.lines b ≡ held_after_read B.Bus.rules (B.Bus.means self.old.below) self.old.lines size address b }
    {
        if size.is_aligned(address) {
            if let Some(word) = self.find(address) {
                return Ok(part(word, size, address));
            }
            if self.below.kind(address).is_steady() {
                let word = self.below.read(Size::Word, address / 4 * 4)?;
                keep(&mut self.lines, address, word);
                return Ok(part(word, size, address));
            }
        }
        self.below.read(size, address)
    }

    fn write(&mut self, size: Size, address: u32, value: u32) -> Result<(), Fault>
        requires { B.Bus.sound self.old.below × Right B.Bus.rules (B.Bus.means self.old.below) self.old.lines }
        ensures sound { B.Bus.sound self.new.below × Right B.Bus.rules (B.Bus.means self.new.below) self.new.lines }
        ensures meaning { B.Bus.means self.new.below ≡ written B.Bus.rules (B.Bus.means self.old.below) size address value }
        ensures answer { result ≡ write_answer B.Bus.rules (B.Bus.means self.old.below) size address }
        ensures held { (b : ℕ) → is_held self.new.lines b ≡ is_held self.old.lines b }
    {
        let held = self.find(address);
        self.below.write(size, address, value)?;
        if let Some(word) = held {
            keep(&mut self.lines, address, merge(word, size, address, value));
        }
        Ok(())
    }

    fn tick(&mut self)
        requires { B.Bus.sound self.old.below × Right B.Bus.rules (B.Bus.means self.old.below) self.old.lines }
        ensures sound { B.Bus.sound self.new.below × Right B.Bus.rules (B.Bus.means self.new.below) self.new.lines }
        ensures meaning { B.Bus.means self.new.below ≡ B.Bus.rules.ticked (B.Bus.means self.old.below) }
        ensures held { self.new.lines ≡ self.old.lines }
    {
        self.below.tick();
    }
}
