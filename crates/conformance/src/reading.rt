// Reads a line of the vector file; tools/gnu/README.md has its format.
ghost use Rattle.std.specs.Prelude.{◌<◌, ◌≤◌, length, IfOk};

use crate::case::{Case, ORIGIN, PC, REGISTERS, State, TOLD};
use anyhow::{Context, bail, ensure};
use std::alloc::Global;

// What stands for a list with nothing in it.
const NOTHING: &str = "-";

// How many digits the 32 bytes have that may stand behind one address.
const LONGEST: usize = 64;

fn read_byte(digits: &[u8]) -> anyhow::Result<u8> {
    let [high, low] = digits else {
        bail!("a byte has not two digits");
    };
    hex_text::byte(*high, *low).context("a digit is none of 0 to 9 and A to F")
}

fn read_word(digits: &str) -> anyhow::Result<u32> {
    hex_text::word(digits.as_bytes()).context("a word has not eight digits of 0 to 9 and A to F")
}

fn check_name(name: &str) -> anyhow::Result<()> {
    ensure!(!name.is_empty(), "NAME is empty");
    ensure!(
        name.bytes()
            .all(|byte| matches!(byte, b'a'..=b'z' | b'0'..=b'9' | b'_')),
        "NAME has other characters than a to z, 0 to 9 and _"
    );
    Ok(())
}

fn read_steps(digits: &str) -> anyhow::Result<u32>
    ensures bound { (IfOk result (λ n. 0 < n)) × (IfOk result (λ n. n < 256)) }
{
    let steps = read_byte(digits.as_bytes())?;
    ensure!(steps != 0, "STEPS is 0");
    Ok(u32::from(steps))
}

// Lays the bytes that digits write into memory, and answers the address behind them.
fn lay(memory: &mut [u8], address: usize, digits: &str) -> anyhow::Result<usize>
    ensures bound { IfOk result (λ behind. behind ≤ length memory.new) }
    ensures some { IfOk result (λ behind. address < behind) }
{
    let end = memory.len();
    // What of memory lies behind the bytes that are laid: nothing, where the address itself is outside.
    let mut room = memory.get_mut(address..).unwrap_or_default().iter_mut();
    for pair in digits.as_bytes().chunks(2) {
        let byte = read_byte(pair)?;
        *room.next().context("a byte lies outside memory")? = byte;
    }
    let behind = end - room.len();
    ensure!(address < behind, "there are no bytes");
    Ok(behind)
}

// Lays WORDS.
fn read_words(digits: &str, memory: &mut [u8]) -> anyhow::Result<()> {
    ensure!(
        digits.len() % 8 == 0,
        "WORDS has not eight digits for each word"
    );
    lay(memory, ORIGIN as usize, digits)?;
    Ok(())
}

// Lays the pieces of DATA or ENDMEM.
fn read_pieces(text: &str, memory: &mut [u8]) -> anyhow::Result<()> {
    if text == NOTHING {
        return Ok(());
    }
    let mut free = 0;
    for piece in text.split(',') {
        let (address, digits) = piece
            .split_once('=')
            .context("bytes of memory have no '='")?;
        let address = read_word(address)? as usize;
        ensure!(address >= free, "addresses do not rise");
        ensure!(digits.len() <= LONGEST, "an address has more than 32 bytes");
        free = lay(memory, address, digits)?;
    }
    Ok(())
}

// The values of START or END by their indices, each where the list names it.
fn read_values<const COUNT: usize>(text: &str) -> anyhow::Result<[Option<u32>; COUNT]> {
    let mut values = [None; COUNT];
    if text == NOTHING {
        return Ok(values);
    }
    let mut free = 0;
    for item in text.split(',') {
        let (index, value) = item.split_once('=').context("a value has no '='")?;
        let index = usize::from(read_byte(index.as_bytes())?);
        ensure!(index >= free, "indices do not rise");
        let named = values.get_mut(index).context("an index is too large")?;
        *named = Some(read_word(value)?);
        free = index + 1;
    }
    Ok(values)
}

fn read_start(values: &str, words: &str, data: &str) -> anyhow::Result<State> {
    let mut start = State::first();
    start.put(&read_values::<REGISTERS>(values)?);
    read_words(words, &mut start.memory)?;
    read_pieces(data, &mut start.memory)?;
    Ok(start)
}

// What END and ENDMEM do not name is as at the start, but for PC, which END always has.
fn read_end(start: State, values: &str, data: &str) -> anyhow::Result<State> {
    let mut end = start;
    let values = read_values::<TOLD>(values)?;
    // No PC is odd: 1 is none either.
    ensure!(values[PC].is_some_and(|pc| pc != 1), "END has no PC");
    end.put(&values);
    read_pieces(data, &mut end.memory)?;
    Ok(end)
}

// NAME STEPS START WORDS DATA END ENDMEM
pub(crate) fn read_case(heap: Global, line: &str) -> anyhow::Result<Case<'_>> {
    let fields: Vec<&str> = line.split(' ').collect(heap)?;
    let [name, steps, values, words, data, end_values, end_data] = fields.as_slice() else {
        bail!("there are not seven fields");
    };
    check_name(name)?;
    let steps = read_steps(steps)?;
    let start = read_start(values, words, data)?;
    let end = read_end(start, end_values, end_data)?;
    Ok(Case {
        name,
        steps,
        start,
        end,
    })
}
