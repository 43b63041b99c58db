// The calls that carry the laws; what they answer says nothing.
ghost use Rattle.laws.specs.Ends.{SignedEnds};
ghost use Rattle.laws.specs.Examples.{WorkedExamples};
ghost use Rattle.laws.specs.Exceptions.{SavesAndReturns};
ghost use Rattle.laws.specs.Registers.{EveryRegisterKeeps};

/// Eight worked examples hold of the definitions.
pub fn worked_examples() -> bool
    ensures examples { WorkedExamples }
{
    true
}

/// An exception saves and clears as said, touches no other saved place, and its return undoes it.
pub fn exception_laws() -> bool
    ensures laws { SavesAndReturns }
{
    true
}

/// A register holds what was last put into it, r0 like any other, and no other changes.
pub fn register_law() -> bool
    ensures law { EveryRegisterKeeps }
{
    true
}

/// Signed comparison, arithmetic right shift and sign extension are right at the ends of the range.
pub fn signed_ends() -> bool
    ensures ends { SignedEnds }
{
    true
}
