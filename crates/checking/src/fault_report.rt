// What a fault of check tells.
ghost use Rattle.std.specs.Prelude.{◌≡◌};
ghost use Rattle.causes.specs.Causes.{number_of};
ghost use Rattle.checking.specs.Reports.{check_report, pair_report, proof_field};

use crate::faults::{CheckFault, Pair};
use causes::Cause;
use certificate::ProofFault;
use report::verdict::{Layer, Report};

// A cause at a line and a field, of a pair of region and face.
fn at_pair(line: u32, field: u32, pair: Pair, cause: Cause) -> Report
    ensures { result ≡ pair_report line field pair (number_of cause) }
{
    Report::at_pair(
        Layer::Proof,
        line,
        field,
        pair.region,
        pair.face,
        cause.into(),
    )
}

// The field told with numbers that do not prove a face: the unequal column, or 0 as in every report that tells no field.
fn proof_field(fault: ProofFault) -> u32
    ensures { result ≡ proof_field fault }
{
    match fault {
        ProofFault::Unequal(column) => column,
        _ => 0,
    }
}

// Layer, place and cause.
impl From<CheckFault> for Report {
    ghost from_gives = { λ fault report. report ≡ check_report fault };

    fn from(fault: CheckFault) -> Report {
        match fault {
            CheckFault::Law(fault) => fault.into(),
            CheckFault::Case(fault) => fault.into(),
            CheckFault::Text(fault) => Report::of_text(Layer::Proof, fault),
            CheckFault::Sizes => Report::at(Layer::Proof, 0, 0, Cause::Sizes.into()),
            CheckFault::Missing(place) => {
                Report::at(Layer::Proof, place.line, place.field, Cause::Missing.into())
            }
            CheckFault::Repeated(line, pair) => at_pair(line, 0, pair, Cause::Repeated),
            CheckFault::Absent(pair) => at_pair(0, 0, pair, Cause::Absent),
            CheckFault::Unproved(line, pair, fault) => {
                at_pair(line, proof_field(fault), pair, fault.into())
            }
        }
    }
}
