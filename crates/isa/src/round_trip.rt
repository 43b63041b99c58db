// Decoding and encoding undo each other, as calls whose contracts say so.
ghost use Rattle.std.specs.Prelude.{◌≡◌, true, ◌↔◌, is_err, IfOk, Ok};
ghost use Rattle.isa.specs.ReservedWords.{ReservedWord};

use crate::instruction::Instruction;
use crate::reserved::Reserved;

/// The word of the instruction that a word is: the same word.
pub fn reencode(word: u32) -> Result<u32, Reserved>
    ensures back { IfOk result (λ again. again ≡ word) }
    ensures reserved { is_err result ≡ true ↔ ReservedWord word }
{
    Ok(Instruction::decode(word)?.encode())
}

/// The instruction that the word of an instruction is: the same instruction.
pub fn redecode(instruction: Instruction) -> Result<Instruction, Reserved>
    ensures back { result ≡ Ok instruction }
{
    Instruction::decode(instruction.encode())
}
