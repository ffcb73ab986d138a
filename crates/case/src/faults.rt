// Why a case text is refused, and where.
ghost use Rattle.std.specs.Prelude.{◌≡◌};
ghost use Rattle.case.specs.declared.faults.CaseFault.TheVariants.{Text as OfText};

use text::faults::{Place, TextFault};

// A fault of the text itself, low above high, at the place of high, or a leeway too narrow for the divisor, at its place.
#[derive(Clone, Copy, PartialEq, Eq, Debug)]
pub enum CaseFault {
    Text(TextFault),
    Order(Place),
    Narrow(Place),
}

impl From<TextFault> for CaseFault {
    ghost from_gives = { λ f r. r ≡ OfText f };

    fn from(fault: TextFault) -> CaseFault {
        CaseFault::Text(fault)
    }
}
