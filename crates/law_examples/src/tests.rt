// Both laws on examples.
use control::{ControlFault, Controller, Fixed, Input, Saturated};
use std::test::Fail;

// The input of the worked law.
const WORKED: Input = Input {
    gains: [-1, 0, 0, 0],
    offset: 0,
    divisor: 4,
    low: -20,
    high: 20,
};

// An input that follows the first state.
const FIRST: Input = Input {
    gains: [1, 0, 0, 0],
    offset: 0,
    divisor: 1,
    low: -10,
    high: 10,
};

// An input that follows the second state.
const SECOND: Input = Input {
    gains: [0, 1, 0, 0],
    offset: 3,
    divisor: 2,
    low: -30,
    high: 40,
};

// A law that passes its limits.
#[derive(Debug, Drop)]
struct Refused;

// The number of the cause of a refusal, or 0, which no cause has.
fn cause<T: Drop>(answer: Result<T, ControlFault>) -> u32 {
    match answer {
        Ok(_) => 0,
        Err(fault) => fault.cause(),
    }
}

// The command of a law of one state and one input, and its region.
fn at(law: &Saturated, x: i64) -> Result<(i64, usize), ControlFault> {
    let mut u = [0];
    law.command(&[x], &mut u)?;
    Ok((u[0], law.region(&[x])?))
}

// A row of a law of one state and one input: its coefficients and its right side.
fn row_at(law: &Saturated, region: usize, row: usize) -> Result<([i64; 2], i64), ControlFault> {
    let mut coefficients = [0, 0];
    let right = law.row(region, row, &mut coefficients)?;
    Ok((coefficients, right))
}

#[test]
fn commands_and_regions(rt: HostRuntime) -> Result<(), Fail> {
    let law = Saturated::new(1, &[WORKED]).ok_or(Refused)?;
    assert_eq!(rt; at(&law, 80)?, (-20, 2));
    assert_eq!(rt; at(&law, 81)?, (-20, 1));
    assert_eq!(rt; at(&law, -83)?, (20, 2));
    assert_eq!(rt; at(&law, -84)?, (20, 3));
    assert_eq!(rt; at(&law, 1)?, (-1, 2));
    Ok(())
}

#[test]
fn rows_of_the_low_region(rt: HostRuntime) -> Result<(), Fail> {
    let law = Saturated::new(1, &[WORKED]).ok_or(Refused)?;
    assert_eq!(rt; law.rows(1)?, 3);
    assert_eq!(rt; row_at(&law, 1, 1)?, ([0, 1], -20));
    assert_eq!(rt; row_at(&law, 1, 2)?, ([0, -1], 20));
    assert_eq!(rt; row_at(&law, 1, 3)?, ([-1, 0], -81));
    Ok(())
}

// No such region or row; this is told before a list of the wrong length.
#[test]
fn missing(rt: HostRuntime) -> Result<(), Fail> {
    let law = Saturated::new(1, &[WORKED]).ok_or(Refused)?;
    let mut list = [7];
    assert_eq!(rt; cause(law.rows(0)), 12);
    assert_eq!(rt; cause(law.rows(4)), 12);
    assert_eq!(rt; cause(law.row(0, 1, &mut list)), 12);
    assert_eq!(rt; cause(law.row(4, 1, &mut list)), 12);
    assert_eq!(rt; cause(law.row(1, 0, &mut list)), 12);
    assert_eq!(rt; cause(law.row(1, 4, &mut list)), 12);
    assert_eq!(rt; list, [7]);
    Ok(())
}

// A list of the wrong length; this is told before a state value out of range.
#[test]
fn lengths(rt: HostRuntime) -> Result<(), Fail> {
    let law = Saturated::new(1, &[WORKED]).ok_or(Refused)?;
    let mut list = [7, 7, 7];
    assert_eq!(rt; cause(law.row(1, 1, &mut list)), 18);
    assert_eq!(rt; cause(law.command(&[1], &mut list)), 18);
    assert_eq!(rt; cause(law.command(&[1_000_001, 1], &mut list[0..1])), 18);
    assert_eq!(rt; cause(law.region(&[])), 18);
    assert_eq!(rt; list, [7, 7, 7]);
    Ok(())
}

#[test]
fn ranges(rt: HostRuntime) -> Result<(), Fail> {
    let law = Saturated::new(1, &[WORKED]).ok_or(Refused)?;
    let mut u = [7];
    assert_eq!(rt; cause(law.command(&[1_000_001], &mut u)), 4);
    assert_eq!(rt; cause(law.command(&[-1_000_001], &mut u)), 4);
    assert_eq!(rt; cause(law.region(&[1_000_001])), 4);
    assert_eq!(rt; u, [7]);
    assert_eq!(rt; at(&law, 1_000_000)?, (-20, 1));
    assert_eq!(rt; at(&law, -1_000_000)?, (20, 3));
    Ok(())
}

// The region number is 1 + d1 + 3 × d2: here d1 is low and d2 is high, then the other way round.
#[test]
fn two_inputs(rt: HostRuntime) -> Result<(), Fail> {
    let law = Saturated::new(2, &[FIRST, SECOND]).ok_or(Refused)?;
    let mut u = [0, 0];
    law.command(&[-50, 90], &mut u)?;
    assert_eq!(rt; u, [-10, 40]);
    assert_eq!(rt; law.regions(), 9);
    assert_eq!(rt; law.region(&[-50, 90])?, 7);
    assert_eq!(rt; law.region(&[50, -90])?, 3);
    Ok(())
}

#[test]
fn fixed_commands(rt: HostRuntime) -> Result<(), Fail> {
    let law = Fixed::new(1, &[5, -7]).ok_or(Refused)?;
    let mut u = [0, 0];
    law.command(&[3], &mut u)?;
    assert_eq!(rt; u, [5, -7]);
    assert_eq!(rt; law.regions(), 1);
    assert_eq!(rt; law.rows(1)?, 4);
    let mut coefficients = [9, 9, 9];
    assert_eq!(rt; law.row(1, 4, &mut coefficients)?, 7);
    assert_eq!(rt; coefficients, [0, 0, -1]);
    Ok(())
}
