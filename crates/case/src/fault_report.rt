// What a fault of a case text tells.
ghost use Rattle.std.specs.Prelude.{◌≡◌};
ghost use Rattle.case.specs.Reports.{case_report};

use crate::faults::CaseFault;
use causes::Cause;
use report::verdict::{Layer, Report};

// Layer, place and cause.
impl From<CaseFault> for Report {
    ghost from_gives = { λ fault report. report ≡ case_report fault };

    fn from(fault: CaseFault) -> Report {
        match fault {
            CaseFault::Text(fault) => Report::of_text(Layer::Case, fault),
            CaseFault::Order(place) => {
                Report::at(Layer::Case, place.line, place.field, Cause::Order.into())
            }
            CaseFault::Narrow(place) => {
                Report::at(Layer::Case, place.line, place.field, Cause::Narrow.into())
            }
        }
    }
}
