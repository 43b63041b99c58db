// Which instruction a word is, or that the word is reserved.
ghost use Rattle.std.specs.Prelude.{◌≡◌, ℕ, ◌^◌, ◌<◌, true, ◌↔◌, is_err, IfOk, Some, None, MatchResult};
ghost use Rattle.isa.specs.Decode.{decoded, instruction_of};
ghost use Rattle.isa.specs.Opcodes.{named};
ghost use Rattle.isa.specs.Unused.{clear, unused};
ghost use Rattle.isa.specs.Words.{field};
ghost use Rattle.isa.specs.Refusal.{refusal};
ghost use Rattle.isa.specs.ReservedWords.{ReservedWord};
ghost use Rattle.std.specs.Option.{ok_or};

use crate::forms::form;
use crate::instruction::Instruction;
use crate::operation::*;
use crate::reserved::Reserved;
use crate::word_fields::bit_field;

/// Whether the bits that a form leaves unused are zero.
fn unused_clear(op: Operation, word: u32) -> bool
    ensures value { result ≡ clear (unused op) word }
{
    match op {
        Operation::Immediate(_) | Operation::Load(_) | Operation::Store(_) => true,
        Operation::Branch(_) | Operation::JumpOffset(_) => true,
        Operation::ShiftImmediate(_) => bit_field(word, 15, 5) == 0,
        Operation::Register(_) => bit_field(word, 10, 0) == 0,
        Operation::Extend(_) | Operation::ReadCsr => {
            bit_field(word, 20, 16) == 0 && bit_field(word, 10, 0) == 0
        }
        Operation::Jump(_) => bit_field(word, 20, 0) == 0,
        Operation::WriteCsr => bit_field(word, 15, 0) == 0,
        Operation::Raise => bit_field(word, 25, 5) == 0,
    }
}

/// The instruction that a word is, if it is one.
fn read(word: u32) -> Option<Instruction>
    ensures value { result ≡ instruction_of (named (field 31 26 word)) word }
{
    let op = Operation::from_opcode(bit_field(word, 31, 26) as u8)?;
    if unused_clear(op, word) {
        form(op, word)
    } else {
        None
    }
}

impl Instruction {
    /// The instruction that a word is, or the refusal of a reserved word. A method, as `encode` is.
    pub fn decode(word: u32) -> Result<Instruction, Reserved>
        ensures answer { result ≡ ok_or (decoded word) refusal }
        ensures cases { MatchResult result (λ i. decoded word ≡ Some i) (λ _. decoded word ≡ None) }
        ensures one_word { IfOk result (λ i. (v : ℕ) → v < 2 ^ 32 → decoded v ≡ Some i → v ≡ word) }
        ensures reserved { is_err result ≡ true ↔ ReservedWord word }
    {
        read(word).ok_or(Reserved)
    }
}
