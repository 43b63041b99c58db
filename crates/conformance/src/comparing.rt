// Compares what the board told with what the simulator ended a case with.
ghost use Rattle.std.specs.Prelude.{T, IfOk, IsOk, ◌↔◌};
ghost use Rattle.conformance.specs.Agreement.{Agrees};

use crate::case::Case;
use crate::difference::Difference;
use crate::machine::Outcome;
use std::alloc::{AllocError, Global};

// Nothing, or the values that are not as the case says.
pub(crate) type Verdict = Result<(), Vec<Difference>>;

// Whether everything is as the case says: what decides, and is proved; the list below is for who reads it.
fn agree(case: &Case<'_>, outcome: &Outcome) -> bool
    ensures { T result ↔ Agrees case.now outcome.now }
{
    let made = outcome.course.made();
    let shown = case.shown_after(made);
    let same_shown = outcome.shown.as_slice() == shown.as_slice();
    let same_memory = outcome.memory.as_slice() == case.end.memory.as_slice();
    same_shown && same_memory && outcome.course.ending == case.ending() && case.allows(made)
}

// Lists the values that are not as expected, as `difference` makes them of a place, what is expected there and what is found.
fn list_values<T: Copy + PartialEq, F: Fn(usize, T, T) -> Difference>(
    list: &mut Vec<Difference>,
    expected: &[T],
    found: &[T],
    difference: F,
) -> Result<(), AllocError>
    requires { F.IsAlwaysCallable difference }
{
    for (place, (expected, found)) in expected.iter().zip(found).enumerate() {
        if expected != found {
            list.push(difference(place, *expected, *found))?;
        }
    }
    Ok(())
}

// Every value that is not as the case says.
fn differences(
    heap: Global,
    case: &Case<'_>,
    outcome: &Outcome,
) -> Result<Vec<Difference>, AllocError> {
    let mut list = Vec::new(heap);
    let made = outcome.course.made();
    if outcome.course.ending != case.ending() {
        let (expected, found) = (case.ending(), outcome.course.ending);
        list.push(Difference::Ending { expected, found })?;
    }
    if !case.allows(made) {
        let (expected, found) = (case.steps, made);
        list.push(Difference::Steps { expected, found })?;
    }
    list_values(
        &mut list,
        &case.shown_after(made),
        &outcome.shown,
        |index, expected, found| Difference::Register {
            index,
            expected,
            found,
        },
    )?;
    list_values(
        &mut list,
        &case.end.memory,
        &outcome.memory,
        |address, expected, found| Difference::Byte {
            address,
            expected,
            found,
        },
    )?;
    Ok(list)
}

// How a run compares with its case. `Ok` is told where every register, every byte, the ending and the steps are as the case says, and nowhere else.
pub(crate) fn compare(
    heap: Global,
    case: &Case<'_>,
    outcome: &Outcome,
) -> Result<Verdict, AllocError>
    ensures { IfOk result (λ verdict. IsOk verdict ↔ Agrees case.now outcome.now) }
{
    if agree(case, outcome) {
        Ok(Ok(()))
    } else {
        Ok(Err(differences(heap, case, outcome)?))
    }
}
