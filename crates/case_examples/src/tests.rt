// The worked case, and next values with a divisor of 10.
use case::reading::read_case;
use case::values::Case;
use control::{Input, Saturated};
use motion::{Outside, permitted, test_state};
use std::test::Fail;
use system::{system_row, system_size};

// The worked case up to its proof lines.
const WORKED: &[u8] =
    b"states inputs disturbances extra divisor\n1 1 1 0 1\nlow high leeway constant\n-100 100 0 0\npush-low push-high\n-5 5\nA B E\n1 1 1\nF f\nregion face scale multipliers\n";

// The input of the worked law.
const INPUT: Input = Input {
    gains: [-1, 0, 0, 0],
    offset: 0,
    divisor: 4,
    low: -20,
    high: 20,
};

// Something that should be there is not.
#[derive(Debug, Drop)]
struct Lacking;

// With divisor 10, leeway 5 and v = 15 the permitted values are 1 and 2; picks 0 and 1 lead there, and 2 is refused.
#[test]
fn picks_lead(rt: HostRuntime) -> Result<(), Fail> {
    let range = permitted(10, 5, 15).ok_or(Lacking)?;
    assert_eq!(rt; range.lead(0), Some(1));
    assert_eq!(rt; range.lead(1), Some(2));
    assert_eq!(rt; range.lead(2), None);
    assert_eq!(rt; range.lead(-1), None);
    let below = permitted(10, 5, -15).ok_or(Lacking)?;
    assert_eq!(rt; below.lead(0), Some(-2));
    assert_eq!(rt; below.lead(1), Some(-1));
    assert!(rt; permitted(0, 5, 15).is_none());
    Ok(())
}

// The faces of the worked case are x <= 100 and -x <= 100.
#[test]
fn faces_hold(rt: HostRuntime) -> Result<(), Fail> {
    let mut case = Case::blank();
    read_case(WORKED, &mut case)?;
    assert_eq!(rt; test_state(&case, &[100]), Ok(()));
    assert_eq!(rt; test_state(&case, &[-100]), Ok(()));
    assert_eq!(rt; test_state(&case, &[101]), Err(Outside::Face(1)));
    assert_eq!(rt; test_state(&case, &[-101]), Err(Outside::Face(2)));
    assert_eq!(rt; test_state(&case, &[i64::MIN]), Err(Outside::Face(2)));
    assert_eq!(rt; test_state(&case, &[0, 0]), Err(Outside::Length));
    assert_eq!(rt; test_state(&case, &[]), Err(Outside::Length));
    Ok(())
}

// Region 1 of the worked case has 9 rows over 4 columns; the last two say that the next state is x + u + w.
#[test]
fn system_has_its_rows(rt: HostRuntime) -> Result<(), Fail> {
    let mut case = Case::blank();
    read_case(WORKED, &mut case)?;
    let law = Saturated::new(1, &[INPUT]).ok_or(Lacking)?;
    let size = system_size(&case, &law, 1)?;
    assert_eq!(rt; size.rows, 9);
    assert_eq!(rt; size.columns, 4);
    let mut row = [0; 4];
    assert_eq!(rt; system_row(&case, &law, 1, 5, &mut row)?, -81);
    assert_eq!(rt; row, [-1, 0, 0, 0]);
    assert_eq!(rt; system_row(&case, &law, 1, 8, &mut row)?, 0);
    assert_eq!(rt; row, [-1, -1, -1, 1]);
    assert!(rt; system_row(&case, &law, 1, 10, &mut row).is_err());
    assert!(rt; system_row(&case, &law, 4, 1, &mut row).is_err());
    Ok(())
}
