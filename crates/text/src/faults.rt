// Why a text is refused, and where.
ghost use Rattle.std.specs.Prelude.{◌≡◌};
ghost use Rattle.text.specs.Causes.{field_cause};

use causes::Cause;

// Why a field is refused.
#[derive(Clone, Copy, PartialEq, Eq, Debug)]
pub enum FieldFault {
    Malformed,
    Outside,
}

impl From<FieldFault> for Cause {
    ghost from_gives = { λ fault cause. cause ≡ field_cause fault };

    fn from(fault: FieldFault) -> Cause {
        match fault {
            FieldFault::Malformed => Cause::Malformed,
            FieldFault::Outside => Cause::Outside,
        }
    }
}

// Where a field stands: its line, and its place in that line, both counted from 1.
#[derive(Clone, Copy, PartialEq, Eq, Debug)]
pub struct Place {
    pub line: u32,
    pub field: u32,
}

// Why a text is refused: its size, a line that is absent, unfinished or of other names, or a field.
#[derive(Clone, Copy, PartialEq, Eq, Debug)]
pub enum TextFault {
    Size,
    Line(u32),
    Field(Place, FieldFault),
}
