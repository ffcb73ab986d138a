// The elimination of one column.
ghost use Rattle.std.specs.Prelude.{◌≡◌, ◌+◌, ◌*◌, ◌<◌, ◌≤◌, true, List, [], ◌∷◌, ◌++◌, map, length, OnOk};
ghost use Rattle.std.specs.List.{AllByRecursion};
ghost use Rattle.fourier.specs.Cone.{is_positive};
ghost use Rattle.elimination.specs.Rows.{coefficient, joined_row, Proper, WhereOk};
ghost use Rattle.elimination.specs.Columns.{most_rows, zeros, positives, negatives, pairs, extended, eliminated, counted, Begins, StaysTraced};
ghost use Rattle.elimination.specs.Standing.{standing, Puts, SamePlaces};

use super::pair::combine;
use super::row::{Column, ProperRow, Row, Stop};
use super::rows::ProperRows;

// The most rows after a column, as in specs.
const MOST_ROWS: usize = 256;

// How many rows have 0, a number above 0 and one below 0 in a column.
#[derive(Clone, Copy)]
struct Signs {
    zero: usize,
    positive: usize,
    negative: usize,
}

// Counts the rows by their signs in the column, in one pass.
fn count_signs(rows: &[Row], column: Column) -> Signs
    ensures zero { result.zero ≡ length (zeros column rows.now) }
    ensures positive { result.positive ≡ length (positives column rows.now) }
    ensures negative { result.negative ≡ length (negatives column rows.now) }
{
    let mut zero = 0;
    let mut positive = 0;
    let mut negative = 0;
    for row in rows {
        if row.is_zero(column) {
            zero += 1;
        } else if row.is_positive(column) {
            positive += 1;
        } else {
            negative += 1;
        }
    }
    Signs {
        zero,
        positive,
        negative,
    }
}

// Rows in places that a caller lends, as the library allocates nothing: the first count of them.
#[derive(Drop)]
struct Rows<'a> {
    places: &'a mut [Row],
    count: usize,
}

impl<'a> Rows<'a> {
    fn push(&mut self, row: Row)
        requires room { self.old.count < length self.old.places.now }
        ensures rows { standing self.new ≡ standing self.old ++ row ∷ [] }
        ensures count { self.new.count ≡ self.old.count + 1 }
        ensures places { SamePlaces self.old self.new }
    {
        self.places[self.count] = row;
        self.count += 1;
    }

    // Puts the rows with 0 in the column behind those that stand.
    #[tactic(auto, using(crate::proofs::Passing::fewer_before))]
    fn copy_zeros(&mut self, rows: &[Row], column: Column)
        requires room { self.old.count + length (zeros column rows.now) ≤ length self.old.places.now }
        ensures rows { standing self.new ≡ standing self.old ++ zeros column rows.now }
        ensures count { self.new.count ≡ self.old.count + length (zeros column rows.now) }
        ensures places { SamePlaces self.old self.new }
    {
        for row in rows {
            if row.is_zero(column) {
                self.push(*row);
            }
        }
    }

    // Puts the row of p with each negative row behind those that stand. The sign is asked in a clause: a row has another in each
    // column.
    #[tactic(auto, using(crate::proofs::Passing::fewer_before))]
    fn join_with(&mut self, p: &ProperRow, rows: &[Row], column: Column) -> Result<(), Stop>
        requires positive { is_positive (coefficient p.now column) ≡ true }
        requires proper { AllByRecursion Proper rows.now }
        requires room { self.old.count + length (negatives column rows.now) ≤ length self.old.places.now }
        ensures rows { Puts (extended (standing self.old) (map (joined_row column p.now) (negatives column rows.now))) result (standing self.new) }
        ensures count { OnOk result (self.new.count ≡ self.old.count + length (negatives column rows.now)) }
        ensures places { SamePlaces self.old self.new }
    {
        for q in rows {
            if q.is_negative(column) {
                let negative = ProperRow { row: q };
                self.push(combine(p, &negative, column)?);
            }
        }
        Ok(())
    }

    // Puts the rows of each positive row with each negative row behind those that stand.
    fn join_all(&mut self, rows: &[Row], column: Column) -> Result<(), Stop>
        requires proper { AllByRecursion Proper rows.now }
        requires room { self.old.count + length (positives column rows.now) * length (negatives column rows.now) ≤ length self.old.places.now }
        ensures rows { Puts (extended (standing self.old) (pairs column (positives column rows.now) (negatives column rows.now))) result (standing self.new) }
        ensures places { SamePlaces self.old self.new }
        ensures within { OnOk result (self.new.count ≤ length self.new.places.now) }
    {
        for p in rows {
            if p.is_positive(column) {
                let positive = ProperRow { row: p };
                self.join_with(&positive, rows, column)?;
            }
        }
        Ok(())
    }
}

// Puts the rows after the column into the first places of out and answers how many there are; the other places may hold
// anything, as may all of them after a stop.
pub fn eliminate(rows: &ProperRows, column: Column, out: &mut [Row]) -> Result<usize, Stop>
    requires few { length rows.now ≤ most_rows }
    requires room { most_rows ≤ length out.old }
    ensures value { result ≡ counted (eliminated column rows.now) }
    ensures rows { Begins out.new (eliminated column rows.now) }
    ensures proper { WhereOk (AllByRecursion Proper) (eliminated column rows.now) }
    ensures traced { StaysTraced column rows.now }
{
    let rows = rows.rows;
    let signs = count_signs(rows, column);
    if signs.zero + signs.positive * signs.negative > MOST_ROWS {
        return Err(Stop::Crowd);
    }
    let mut kept = Rows {
        places: out,
        count: 0,
    };
    kept.copy_zeros(rows, column);
    kept.join_all(rows, column)?;
    Ok(kept.count)
}
