// The fields of a line, from left to right.
ghost use Rattle.std.specs.Prelude.{◌≡◌, ◌≤◌, cond, length, take, ◌≤ℤ◌, ◌==◌, is_ok, IfOk, Some, position};
ghost use Rattle.std.specs.Option.{option_map};
ghost use Rattle.text.specs.Left.{left_of};
ghost use Rattle.text.specs.Lines.{cut_at, split_field, next_field, next_number, after_field, end_of, row_of, wide_row_of, row_width, long_row_width};

use crate::faults::{FieldFault, Place, TextFault};
use crate::number::{Limit, field_number};

// The most numbers of one row. Rows are arrays of fixed widths, with zeros behind the numbers, as nothing is allocated.
pub const ROW_WIDTH: usize = 8;

// The most numbers of a long row.
pub const LONG_ROW_WIDTH: usize = 41;

// Where the first byte `at` of a text stands.
fn place_of(text: &[u8], at: u8) -> Option<usize>
    ensures { result ≡ position (λ b. b == at) text.now }
{
    text.iter().position(|b| *b == at)
}

// What stands before the first byte `at` of a text, and what stands after it.
pub fn cut(text: &[u8], at: u8) -> Option<(&[u8], &[u8])>
    ensures { option_map (λ p. (p.0.now, p.1.now)) result ≡ cut_at at text.now }
{
    let i = place_of(text, at)?;
    Some((&text[..i], &text[i + 1..]))
}

// The first field of what is left of a line, and what is left then: nothing after the last field.
fn split_field(left: &[u8]) -> (&[u8], Option<&[u8]>)
    ensures field { result.0.now ≡ (split_field left.now).0 }
    ensures rest { option_map (λ x. x.now) result.1 ≡ (split_field left.now).1 }
{
    match cut(left, b' ') {
        Some((front, back)) => (front, Some(back)),
        None => (left, None),
    }
}

// At most as many limits as a row has places.
fn row_limits<const N: usize>(limits: &[Limit]) -> &[Limit]
    ensures value { result.now ≡ take N limits.now }
    ensures few { length result.now ≤ N }
{
    if limits.len() > N {
        &limits[0..N]
    } else {
        limits
    }
}

// A line as far as it is not read: nothing once its last field is.
#[derive(Clone, Copy)]
pub struct Fields<'a> {
    rest: Option<&'a [u8]>,
}

impl<'a> Fields<'a> {
    // All fields of a line.
    pub fn of(line: &'a [u8]) -> Fields<'a>
        ensures { left_of result ≡ Some line.now }
    {
        Fields { rest: Some(line) }
    }

    // The bytes of the next field.
    pub fn word(&mut self) -> Option<&'a [u8]>
        ensures value { option_map (λ x. x.now) result ≡ next_field (left_of self.old) }
        ensures left { left_of self.new ≡ after_field (left_of self.old) }
    {
        let rest = self.rest?;
        let (field, left) = split_field(rest);
        self.rest = left;
        Some(field)
    }

    // The number of the next field, whose place is told with a fault; a fault leaves the line as it was.
    pub fn number(&mut self, place: Place, limit: Limit) -> Result<i64, TextFault>
        ensures value { result ≡ next_number place limit (left_of self.old) }
        ensures left { left_of self.new ≡ cond (is_ok result) (after_field (left_of self.old)) (left_of self.old) }
        ensures inside { IfOk result (λ z. (limit.low ≤ℤ z) × (z ≤ℤ limit.high)) }
    {
        let rest = self
            .rest
            .ok_or(TextFault::Field(place, FieldFault::Malformed))?;
        let (field, left) = split_field(rest);
        let number = field_number(field, limit).map_err(|fault| TextFault::Field(place, fault))?;
        self.rest = left;
        Ok(number)
    }

    // Whether the line has no field more, told at the place where one would stand.
    pub fn end(&self, place: Place) -> Result<(), TextFault>
        ensures { result ≡ end_of place (left_of self.now) }
    {
        match self.rest {
            None => Ok(()),
            Some(_) => Err(TextFault::Field(place, FieldFault::Malformed)),
        }
    }

    // The numbers of the fields that are left, one for each limit up to the N-th, then zeros; `before` fields of the line
    // stand before them.
    fn numbers<const N: usize>(
        mut self,
        line: u32,
        before: u8,
        limits: &[Limit],
    ) -> Result<[i64; N], TextFault>
        requires small { N ≤ 100 }
        ensures value { result ≡ wide_row_of N line before (take N limits.now) (left_of self.entry) }
    {
        let used = row_limits::<N>(limits);
        let mut row = [0; N];
        // Written by index: what an adapter of `iter_mut` writes is not known to the proof afterwards.
        for (i, limit) in used.iter().enumerate() {
            let field = u32::from(before) + i as u32 + 1;
            row[i] = self.number(Place { line, field }, *limit)?;
        }
        let field = u32::from(before) + used.len() as u32 + 1;
        self.end(Place { line, field })?;
        Ok(row)
    }

    // The numbers of the fields that are left, one for each limit up to the eighth, then zeros; `before` fields of the
    // line stand before them. The two widths of lines stand as calls of their own: they ask nothing of the width.
    // Line, fields before and limits are no struct: nothing else is asked of the three.
    pub fn row(self, line: u32, before: u8, limits: &[Limit]) -> Result<[i64; 8], TextFault>
        ensures { result ≡ row_of line before (take row_width limits.now) (left_of self.entry) }
    {
        self.numbers::<ROW_WIDTH>(line, before, limits)
    }

    // The same in a long row, of up to 41 numbers.
    pub fn long_row(self, line: u32, before: u8, limits: &[Limit]) -> Result<[i64; 41], TextFault>
        ensures value { result ≡ wide_row_of long_row_width line before (take long_row_width limits.now) (left_of self.entry) }
    {
        self.numbers::<LONG_ROW_WIDTH>(line, before, limits)
    }
}
