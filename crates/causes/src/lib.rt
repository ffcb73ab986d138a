// The causes of refusals, and the number that a report tells of each.
#![tactic(auto)]

ghost use Rattle.std.specs.Prelude.{◌≡◌};
ghost use Rattle.causes.specs.Causes.{number_of};

// Why something is refused; its number stands beside it.
#[derive(Clone, Copy, PartialEq, Eq, Debug)]
pub enum Cause {
    // of texts: the size, a line, a field's form, a number out of its limits
    Size = 1,
    Line = 2,
    Malformed = 3,
    Outside = 4,
    // of law and case texts: the law word, low above high, a leeway too narrow
    Word = 5,
    Order = 6,
    Narrow = 9,
    // of check: sizes that differ, no such region or face, a pair named before, a pair that no line names, an unequal column,
    // a right side too large
    Sizes = 11,
    Missing = 12,
    Repeated = 13,
    Absent = 14,
    Unequal = 15,
    Excess = 16,
    // of lists that are handed over
    Length = 18,
}

impl From<Cause> for u32 {
    ghost from_gives = { λ cause number. number ≡ number_of cause };

    fn from(cause: Cause) -> u32 {
        cause as u32
    }
}
