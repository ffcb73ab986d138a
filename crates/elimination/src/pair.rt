// The row of two rows, in which a column falls out.
ghost use Rattle.std.specs.Prelude.{◌≡◌, ◌/◌, ◌<◌, ◌≤◌, true, pos, ◌+ℤ◌, ◌*ℤ◌, ◌<ℤ◌};
ghost use Rattle.std.specs.List.{AllByRecursion};
ghost use Rattle.arith.specs.Bounds.{Within};
ghost use Rattle.fourier.specs.Cone.{is_positive, is_negative};
ghost use Rattle.elimination.specs.Rows.{number_limit, sum_limit, coefficient, weighted, divided, content, reduced, joined_sum, joined_row, judged, Proper, Pair, WhereOk};
ghost use Rattle.elimination.specs.Traced.{JoinsExactly};

use super::divisor::{common_divisor, divisor_of};
use super::lists::{divide_all, weigh, weigh_all};
use super::row::{Column, ProperRow, Row, Stop};

// x × p + y × q. Each factor beside its row: a struct of the two would be made here only to be taken apart.
fn weighted_sum(x: i64, p: &ProperRow, y: i64, q: &ProperRow) -> Row
    requires factors { (Within number_limit x) × (Within number_limit y) }
    ensures value { result ≡ weighted x y p.now q.now }
{
    let (p, q) = (p.row, q.row);
    Row {
        multipliers: weigh_all(x, &p.multipliers, y, &q.multipliers),
        scale: weigh(x, p.scale, y, q.scale),
        coefficients: weigh_all(x, &p.coefficients, y, &q.coefficients),
        right: weigh(x, p.right, y, q.right),
    }
}

// The greatest common divisor of multipliers and scale.
fn content_of(row: &Row) -> i64
    requires multipliers { AllByRecursion (Within sum_limit) row.now.multipliers }
    requires scale { Within sum_limit row.now.scale }
    ensures value { result ≡ pos (content row.now) }
{
    divisor_of(row.scale.unsigned_abs(), &row.multipliers) as i64
}

// Every number divided by d, rounded toward 0.
fn divide(row: &Row, d: i64) -> Row
    requires above { pos 0 <ℤ d }
    ensures value { result ≡ divided d row.now }
{
    Row {
        multipliers: divide_all(row.multipliers, d),
        scale: row.scale / d,
        coefficients: divide_all(row.coefficients, d),
        right: row.right / d,
    }
}

// The row divided by the greatest common divisor of multipliers and scale.
fn reduce(row: &Row) -> Row
    requires multipliers { AllByRecursion (Within sum_limit) row.now.multipliers }
    requires scale { Within sum_limit row.now.scale }
    requires above { 0 < content row.now }
    ensures value { result ≡ reduced row.now }
{
    divide(row, content_of(row))
}

// A factor of the combination.
fn ratio(b: u64, g: u64) -> i64
    requires small { b ≤ number_limit }
    requires above { 0 < g }
    ensures value { result ≡ pos (b / g) }
{
    (b / g) as i64
}

// The combination of p, positive in the column, and q, negative in it, in which the column falls out. The signs are asked in
// clauses, here and below: a row has another in each column.
fn join_sum(p: &ProperRow, q: &ProperRow, column: Column) -> Row
    requires positive { is_positive (coefficient p.now column) ≡ true }
    requires negative { is_negative (coefficient q.now column) ≡ true }
    ensures value { result ≡ joined_sum column p.now q.now }
    ensures pair { Pair column p.now q.now }
{
    let a = p.magnitude(column);
    let b = q.magnitude(column);
    let g = common_divisor(a, b);
    weighted_sum(ratio(b, g), p, ratio(a, g), q)
}

// The row of p, positive in the column, and q, negative in it: their combination divided by the greatest common divisor of
// its multipliers and scale. It stops where a number passes its limit. The signs are asked in a clause, as a row has another in
// each column.
pub fn combine(p: &ProperRow, q: &ProperRow, column: Column) -> Result<Row, Stop>
    requires positive { is_positive (coefficient p.now column) ≡ true }
    requires negative { is_negative (coefficient q.now column) ≡ true }
    ensures value { result ≡ judged (joined_row column p.now q.now) }
    ensures proper { WhereOk Proper result }
    ensures exact { JoinsExactly column p.now q.now }
{
    let row = reduce(&join_sum(p, q, column));
    if row.is_allowed() {
        Ok(row)
    } else {
        Err(Stop::Number)
    }
}
