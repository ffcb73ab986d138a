// What a fault of a law text tells.
ghost use Rattle.std.specs.Prelude.{◌≡◌};
ghost use Rattle.laws.specs.Reports.{law_report};

use crate::faults::LawFault;
use causes::Cause;
use report::verdict::{Layer, Report};

// Layer, place and cause.
impl From<LawFault> for Report {
    ghost from_gives = { λ fault report. report ≡ law_report fault };

    fn from(fault: LawFault) -> Report {
        match fault {
            LawFault::Text(fault) => Report::of_text(Layer::Law, fault),
            LawFault::Word(line) => Report::at(Layer::Law, line, 1, Cause::Word.into()),
            LawFault::Order(place) => {
                Report::at(Layer::Law, place.line, place.field, Cause::Order.into())
            }
        }
    }
}
