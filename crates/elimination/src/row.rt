// A row of an elimination, its columns, and why an elimination stops.
ghost use Rattle.std.specs.Prelude.{◌≡◌, ◌<◌, ◌≤◌, ◌↔◌, IsTrue, IsSome, IfSome, unsigned_abs};
ghost use Rattle.fourier.specs.Cone.{is_zero, is_positive, is_negative};
ghost use Rattle.elimination.specs.Rows.{number_limit, coefficient, blank, dead, allowed, BlankForm, low, weighty, proper, Proper};

use super::lists::{all_low, any_above};
use arith::{all_within, is_within};
use std::marker::Model;

// The places of multipliers and of coefficients; those that a system does not use hold 0.
pub const MULTIPLIERS: usize = 40;

pub const COLUMNS: usize = 12;

// The most of a multiplier and of a scale, and of the magnitude of a coefficient and of a right side.
const MULTIPLIER_LIMIT: u64 = 1_000_000;

const NUMBER_LIMIT: u64 = 1_000_000_000;

// coefficients × point ≤ right, derived from a system's rows and the turned face with these multipliers and this scale.
// Arrays of as many places as a system can need: nothing is allocated.
#[derive(Clone, Copy)]
pub struct Row {
    pub multipliers: [i64; MULTIPLIERS],
    pub scale: i64,
    pub coefficients: [i64; COLUMNS],
    pub right: i64,
}

impl Row {
    // Whether all coefficients are 0.
    pub fn is_blank(&self) -> bool
        ensures value { result ≡ blank self.now }
        ensures form { BlankForm self.now }
    {
        all_within(&self.coefficients, 0)
    }

    // Whether no point meets the row: all coefficients are 0 and the right side is below 0, or 0 with a scale above 0.
    pub fn is_dead(&self) -> bool
        ensures value { result ≡ dead self.now }
    {
        self.is_blank() && (self.right < 0 || (self.right == 0 && self.scale > 0))
    }

    // Whether every number is within its limit.
    pub(crate) fn is_allowed(&self) -> bool
        ensures value { result ≡ allowed self.now }
    {
        all_within(&self.multipliers, MULTIPLIER_LIMIT)
            && is_within(self.scale, MULTIPLIER_LIMIT)
            && all_within(&self.coefficients, NUMBER_LIMIT)
            && is_within(self.right, NUMBER_LIMIT)
    }

    // Whether an elimination may go on with the row.
    pub(crate) fn is_proper(&self) -> bool
        ensures value { result ≡ proper self.now }
        ensures fact { IsTrue result ↔ Proper self.now }
    {
        self.is_allowed() && self.is_low() && self.is_weighty()
    }

    // Whether no multiplier and no scale is below 0.
    fn is_low(&self) -> bool
        ensures value { result ≡ low self.now }
    {
        self.scale >= 0 && all_low(&self.multipliers)
    }

    // Whether the scale or some multiplier is above 0.
    fn is_weighty(&self) -> bool
        ensures value { result ≡ weighty self.now }
    {
        self.scale > 0 || any_above(&self.multipliers)
    }

    // The sign of the coefficient in the column: three questions, as each is asked by itself.
    pub(crate) fn is_zero(&self, column: Column) -> bool
        ensures value { result ≡ is_zero (coefficient self.now column) }
    {
        self.coefficients[column.index] == 0
    }

    pub(crate) fn is_positive(&self, column: Column) -> bool
        ensures value { result ≡ is_positive (coefficient self.now column) }
    {
        self.coefficients[column.index] > 0
    }

    pub(crate) fn is_negative(&self, column: Column) -> bool
        ensures value { result ≡ is_negative (coefficient self.now column) }
    {
        self.coefficients[column.index] < 0
    }
}

// A row that an elimination may go on with, where it stands: its numbers are within their limits, no multiplier and no scale
// is below 0, and one of them is above 0. Whoever knows that makes it by a literal, without a test.
#[derive(Clone, Drop)]
pub struct ProperRow<'a> {
    pub row: &'a Row,
}

impl<'a> Model for ProperRow<'a> {
    ghost use Rattle.elimination.specs.declared.row.Row.{Row};
    ghost use Rattle.elimination.specs.Rows.{Proper};

    ghost Value = { Row };

    ghost view = { λ r. r.row.now };

    ghost invariant = { λ r. Proper r.row.now };
}

impl<'a> ProperRow<'a> {
    // None where the row is not proper.
    pub fn new(row: &'a Row) -> Option<ProperRow<'a>>
        ensures proper { IsSome result ↔ Proper row.now }
        ensures value { IfSome result (λ r. r ≡ row.now) }
    {
        if row.is_proper() {
            Some(ProperRow { row })
        } else {
            None
        }
    }

    // The magnitude of the coefficient in the column.
    pub(crate) fn magnitude(&self, column: Column) -> u64
        ensures value { result ≡ unsigned_abs (coefficient self.now column) }
        ensures small { result ≤ number_limit }
        ensures proper { Proper self.now }
    {
        self.row.coefficients[column.index].unsigned_abs()
    }
}

// A column of a row, counted from 0.
#[derive(Clone, Copy, PartialEq, Eq, Debug)]
pub struct Column {
    pub index: usize,
}

impl Model for Column {
    ghost use Rattle.std.specs.Prelude.{ℕ, ◌<◌};
    ghost use Rattle.elimination.specs.declared.row.TheConstants.{COLUMNS};

    ghost Value = { ℕ };

    ghost view = { λ c. c.index };

    ghost invariant = { λ c. c.index < COLUMNS };

    ghost inverse = { λ n. record { index = n } };
}

impl Column {
    // None where a row has no such column.
    pub fn new(index: usize) -> Option<Column>
        ensures inside { IsSome result ↔ (index < COLUMNS) }
        ensures value { IfSome result (λ c. c ≡ index) }
    {
        if index < COLUMNS {
            Some(Column { index })
        } else {
            None
        }
    }
}

// Too many rows, or a number too large.
#[derive(Clone, Copy, PartialEq, Eq, Debug)]
pub enum Stop {
    Crowd,
    Number,
}
