// The proof lines of a case, one by one.
ghost use Rattle.std.specs.Prelude.{◌≡◌, ◌+◌, ◌≤◌, true, [], length, pos, ◌≤ℤ◌, IfOk, OnOk, unsigned_abs};
ghost use Rattle.text.specs.Left.{left_of};
ghost use Rattle.text.specs.Lines.{text_limit, next_number, after_field};
ghost use Rattle.case.specs.Faces.{faces};
ghost use Rattle.system.specs.Answers.{most_system_rows, system_of};
ghost use Rattle.system.specs.Systems.{case_in, control_in};
ghost use Rattle.certificate.specs.Tests.{all_in_limit};
ghost use Rattle.checking.specs.Checking.{most_first_line, up_to, as_index, proof_line, equations_at, line_behind, text_check};
ghost use Rattle.checking.specs.Marks.{marked, LineTold};

use crate::faults::CheckFault;
use crate::named::{Named, PairIndex};
use certificate::{MULTIPLIER_LIMIT, test_proof};
use control::Controller;
use system::ClosedLoop;
use text::faults::{FieldFault, Place, TextFault};
use text::fields::{Fields, LONG_ROW_WIDTH, cut};
use text::number::Limit;

// The limit of a scale or a multiplier, for each of a proof line's numbers.
const PROOF: [Limit; LONG_ROW_WIDTH] = [Limit {
    low: 0,
    high: MULTIPLIER_LIMIT,
}; LONG_ROW_WIDTH];

// The region or the face, of so many, that the next field of a line names.
fn read_index(fields: &mut Fields, place: Place, count: usize) -> Result<usize, CheckFault>
    requires { count ≤ 16 }
    ensures value { result ≡ as_index (next_number place (up_to count) (left_of fields.old)) }
    ensures left { OnOk result (left_of fields.new ≡ after_field (left_of fields.old)) }
    ensures inside { IfOk result (λ i. (1 ≤ i) × (i ≤ count)) }
{
    let limit = Limit {
        low: 1,
        high: count as i64,
    };
    match fields.number(place, limit) {
        Ok(number) => Ok(number.unsigned_abs() as usize),
        Err(TextFault::Field(at, FieldFault::Outside)) => Err(CheckFault::Missing(at)),
        Err(fault) => Err(fault.into()),
    }
}

// How many rows the system of a region has.
fn row_count<C: Controller>(closed: &ClosedLoop<C>, region: usize) -> usize
    requires { (1 ≤ region) × (region ≤ length (C.partition closed.now.controller.now)) }
    ensures value { result ≡ length (system_of (case_in closed.now) (control_in closed.now) region) }
    ensures few { result ≤ most_system_rows }
{
    closed.system(region).unwrap().rows
}

// Tests the numbers of a line, a scale and multipliers, by Farkas' equations.
fn prove<C: Controller>(
    closed: &ClosedLoop<C>,
    line: u32,
    index: PairIndex,
    numbers: &[i64],
) -> Result<(), CheckFault>
    requires region { index.region ≤ length (C.partition closed.now.controller.now) }
    requires face { index.face ≤ length (faces (case_in closed.now)) }
    requires long { length numbers.now ≡ 1 + length (system_of (case_in closed.now) (control_in closed.now) index.region) }
    requires limits { all_in_limit numbers.now ≡ true }
    ensures { result ≡ equations_at (case_in closed.now) (control_in closed.now) line (proof_line index.region index.face numbers.now) }
{
    let scale = numbers[0];
    let multipliers = &numbers[1..];
    test_proof(
        closed.case,
        closed.controller,
        index.region,
        index.face,
        scale,
        multipliers,
    )
    .map_err(|fault| CheckFault::Unproved(line, index.into(), fault))
}

// Judges one line behind those that have named these pairs; a line that stands names one pair more.
fn check_line<C: Controller>(
    closed: &ClosedLoop<C>,
    line: u32,
    bytes: &[u8],
    named: &mut Named,
) -> Result<(), CheckFault>
    ensures { LineTold (line_behind (case_in closed.now) (control_in closed.now) (marked named.old.flags) line bytes.now) named.old.flags named.new.flags result }
{
    let case = closed.case;
    let mut fields = Fields::of(bytes);
    let region = read_index(
        &mut fields,
        Place { line, field: 1 },
        closed.controller.regions(),
    )?;
    let face = read_index(&mut fields, Place { line, field: 2 }, case.face_count())?;
    let index = PairIndex { region, face };
    if named.has(index) {
        return Err(CheckFault::Repeated(line, index.into()));
    }
    let count = 1 + row_count(closed, region);
    let numbers = fields.long_row(line, 2, &PROOF[0..count])?;
    prove(closed, line, index, &numbers[0..count])?;
    named.add(index);
    Ok(())
}

// Judges the proof lines of a case in their order, and then whether they name every pair.
pub(crate) fn check_lines<C: Controller>(closed: &ClosedLoop<C>) -> Result<(), CheckFault>
    requires short { (closed.now.case.now.line ≤ most_first_line) × (length closed.now.case.now.proofs.now ≤ text_limit) }
    ensures { result ≡ text_check (case_in closed.now) (control_in closed.now) [] closed.now.case.now.line closed.now.case.now.proofs.now }
{
    let case = closed.case;
    let mut named = Named::none();
    let mut rest = case.proofs;
    let mut line = case.line;
    // A while loop: a rest without a line feed is a fault, which an iterator of lines would have to give as one of them.
    while !rest.is_empty() {
        let (bytes, after) = cut(rest, b'\n').ok_or(TextFault::Line(line))?;
        check_line(closed, line, bytes, &mut named)?;
        rest = after;
        line += 1;
    }
    named.all(closed.controller.regions(), case.face_count())
}
