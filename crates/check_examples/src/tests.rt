use case::reading::read_case;
use case::values::Case;
use checking::check;
use checking::faults::{CheckFault, Pair};
use control::{Fixed, Input, Saturated};
use judgement::{Accepted, judge_text};
use std::test::Fail;
use text::faults::{FieldFault, Place, TextFault};

// The case of the worked example.
const WORKED: &[u8] =
    b"states inputs disturbances extra divisor\n1 1 1 0 1\nlow high leeway constant\n-100 100 0 0\npush-low push-high\n-5 5\nA B E\n1 1 1\nF f\nregion face scale multipliers\n1 1 1 1 0 1 0 0 1 0 1 0\n1 2 1 0 0 0 1 1 0 1 0 1\n2 1 4 3 0 1 0 0 0 4 0 4 0\n2 2 4 0 3 0 1 0 0 0 4 0 4\n3 1 1 0 0 1 0 1 1 0 1 0\n3 2 1 0 1 0 1 0 0 1 0 1\n";

// The fixed command 0 with a state that stays: one region, two proofs.
const STILL: &[u8] =
    b"law states inputs\nfixed 1 1\ncommand\n0\nstates inputs disturbances extra divisor\n1 1 0 0 1\nlow high leeway constant\n-7 7 0 0\npush-low push-high\nA B E\n1 1\nF f\nregion face scale multipliers\n1 2 1 0 1 0 1 0 1\n1 1 1 1 0 1 0 1 0\n";

// The same without the proof of face 1.
const SHORT: &[u8] =
    b"law states inputs\nfixed 1 1\ncommand\n0\nstates inputs disturbances extra divisor\n1 1 0 0 1\nlow high leeway constant\n-7 7 0 0\npush-low push-high\nA B E\n1 1\nF f\nregion face scale multipliers\n1 2 1 0 1 0 1 0 1\n";

// Something that should be there is not.
#[derive(Debug, Drop)]
struct Lacking;

// A controller made by hand and a case that was read: check makes it a trusted case.
#[test]
fn a_read_case_becomes_trusted(rt: HostRuntime) -> Result<(), Fail> {
    let mut place = Case::blank();
    read_case(WORKED, &mut place)?;
    let input = Input {
        gains: [-1, 0, 0, 0],
        offset: 0,
        divisor: 4,
        low: -20,
        high: 20,
    };
    let law = Saturated::new(1, &[input]).ok_or(Lacking)?;
    let Ok(trusted) = check(&place, &law) else {
        return Err(Fail::new("refused"));
    };
    assert_eq!(rt; trusted.case().states, 1);
    Ok(())
}

// With another controller of the same sizes its proofs do not stand: the fixed law has a row less, so a field is surplus.
#[test]
fn a_certificate_is_for_one_controller(rt: HostRuntime) -> Result<(), Fail> {
    let mut place = Case::blank();
    read_case(WORKED, &mut place)?;
    let law = Fixed::new(1, &[0]).ok_or(Lacking)?;
    let Err(fault) = check(&place, &law) else {
        return Err(Fail::new("accepted"));
    };
    let place = Place {
        line: 11,
        field: 12,
    };
    assert_eq!(rt;
        fault,
        CheckFault::Text(TextFault::Field(place, FieldFault::Malformed))
    );
    Ok(())
}

// From bytes: the proofs may stand in any order, and each pair must be named.
#[test]
fn bytes_are_judged(rt: HostRuntime) {
    assert_eq!(rt;
        judge_text(STILL),
        Ok(Accepted {
            regions: 1,
            faces: 2,
        })
    );
    assert_eq!(rt;
        judge_text(SHORT),
        Err(CheckFault::Absent(Pair { region: 1, face: 1 }))
    );
}
