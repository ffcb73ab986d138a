// Why a law text is refused, and where.
ghost use Rattle.std.specs.Prelude.{◌≡◌};
ghost use Rattle.laws.specs.declared.faults.LawFault.TheVariants.{Text as OfText};

use text::faults::{Place, TextFault};

// A fault of the text itself, a law word that is unknown, by its line, or low above high, at the place of high.
#[derive(Clone, Copy, PartialEq, Eq, Debug)]
pub enum LawFault {
    Text(TextFault),
    Word(u32),
    Order(Place),
}

impl From<TextFault> for LawFault {
    ghost from_gives = { λ f r. r ≡ OfText f };

    fn from(fault: TextFault) -> LawFault {
        LawFault::Text(fault)
    }
}
