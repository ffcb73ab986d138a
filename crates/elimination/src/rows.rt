// The rows that an elimination starts from.
ghost use Rattle.std.specs.Prelude.{◌≡◌, ◌↔◌, IsTrue, IsSome, IfSome};
ghost use Rattle.std.specs.List.{AllByRecursion};
ghost use Rattle.elimination.specs.Rows.{Proper};

use super::row::Row;
use std::marker::Model;

// Rows that are all proper, where they stand. Whoever knows that they are makes it by a literal, without a test.
#[derive(Drop)]
pub struct ProperRows<'a> {
    pub rows: &'a [Row],
}

impl<'a> Model for ProperRows<'a> {
    ghost use Rattle.std.specs.Prelude.{List};
    ghost use Rattle.std.specs.List.{AllByRecursion};
    ghost use Rattle.elimination.specs.declared.row.Row.{Row};
    ghost use Rattle.elimination.specs.Rows.{Proper};

    ghost Value = { List Row };

    ghost view = { λ r. r.rows.now };

    ghost invariant = { λ r. AllByRecursion Proper r.rows.now };
}

// Whether every row is proper.
fn all_proper(rows: &[Row]) -> bool
    ensures { IsTrue result ↔ AllByRecursion Proper rows.now }
{
    rows.iter().all(|row| row.is_proper())
}

impl<'a> ProperRows<'a> {
    // None where a row is not proper.
    pub fn new(rows: &'a [Row]) -> Option<ProperRows<'a>>
        ensures proper { IsSome result ↔ AllByRecursion Proper rows.now }
        ensures value { IfSome result (λ r. r ≡ rows.now) }
    {
        if all_proper(rows) {
            Some(ProperRows { rows })
        } else {
            None
        }
    }
}
