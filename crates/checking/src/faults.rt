// Why a law text with its case text is not accepted, and where.
ghost use Rattle.std.specs.Prelude.{◌≡◌};
ghost use Rattle.checking.specs.declared.faults.CheckFault.TheVariants.{Law as OfLaw, Case as OfCase, Text as OfText};

use case::faults::CaseFault;
use certificate::ProofFault;
use laws::faults::LawFault;
use text::faults::{Place, TextFault};

// A region of the law and a face of the case, both counted from 1.
#[derive(Clone, Copy, PartialEq, Eq, Debug)]
pub struct Pair {
    pub region: u32,
    pub face: u32,
}

// A fault of the law text or of the case text; a fault of the text in a proof line; another number of states or inputs in
// the controller than in the case; no such region or face, at its place; a pair that an earlier line names; a pair that no
// line names; numbers that do not prove the face, with the line and the pair.
#[derive(Clone, Copy, PartialEq, Eq, Debug)]
pub enum CheckFault {
    Law(LawFault),
    Case(CaseFault),
    Text(TextFault),
    Sizes,
    Missing(Place),
    Repeated(u32, Pair),
    Absent(Pair),
    Unproved(u32, Pair, ProofFault),
}

impl From<LawFault> for CheckFault {
    ghost from_gives = { λ f r. r ≡ OfLaw f };

    fn from(fault: LawFault) -> CheckFault {
        CheckFault::Law(fault)
    }
}

impl From<CaseFault> for CheckFault {
    ghost from_gives = { λ f r. r ≡ OfCase f };

    fn from(fault: CaseFault) -> CheckFault {
        CheckFault::Case(fault)
    }
}

impl From<TextFault> for CheckFault {
    ghost from_gives = { λ f r. r ≡ OfText f };

    fn from(fault: TextFault) -> CheckFault {
        CheckFault::Text(fault)
    }
}
