// The place that a law text fills.
use control::Input;

// What kind of law a text has.
#[derive(Clone, Copy, PartialEq, Eq, Debug)]
pub enum LawKind {
    Saturated,
    Fixed,
}

// The numbers of a law, input by input; the places of a lacking state or input hold 0. Fixed places: a caller lends them.
#[derive(Clone, Copy)]
pub enum LawTable {
    Saturated([Input; 2]),
    Fixed([i64; 2]),
}
