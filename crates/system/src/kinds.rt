// One row of each kind that a case gives: faces of the box, extra faces, pushes and next states. Rows count from 0 here.
// The length of the list stands in each contract: a struct can hold no fact about a list that it lends to be written. So does
// that there is a row j: each kind has another number of rows.
ghost use Rattle.std.specs.Prelude.{◌≡◌, ◌+◌, ◌*◌, ◌<◌, ◌≤◌, true, length, slice_index_or};
ghost use Rattle.arith.specs.Bounds.{Within};
ghost use Rattle.control.specs.Answers.{no_row};
ghost use Rattle.case.specs.Limits.{equation_ok};
ghost use Rattle.case.specs.Faces.{faces};
ghost use Rattle.case.specs.System.{column_count, over_states, push_rows, equation_row, next_rows};
ghost use Rattle.case.specs.Values.{values_of, equation_of};
ghost use Rattle.system.specs.Filled.{filled};

use super::fill::{bound_row, fill_scaled, fill_unit};
use case::values::{Case, StateEquation};

// Face j, one of the box.
pub(crate) fn box_row(case: &Case, j: usize, coefficients: &mut [i64]) -> i64
    requires place { j < 2 * case.now.states }
    requires long { length coefficients.old ≡ column_count (values_of case.now) }
    ensures { let k = values_of case.now in filled coefficients.new result ≡ over_states k (slice_index_or (faces k) j no_row) }
{
    let state = case.equations[j / 2];
    bound_row(j / 2, state.low, state.high, j, coefficients)
}

// Row j of the pushes.
pub(crate) fn push_row(case: &Case, j: usize, coefficients: &mut [i64]) -> i64
    requires place { j < 2 * case.now.pushes }
    requires long { length coefficients.old ≡ column_count (values_of case.now) }
    ensures { let k = values_of case.now in filled coefficients.new result ≡ slice_index_or (push_rows k 0 k.bounds) j no_row }
{
    let push = case.bounds[j / 2];
    let column = case.states + case.inputs + j / 2;
    bound_row(column, push.low, push.high, j, coefficients)
}

// Face j, an extra one.
pub(crate) fn extra_row(case: &Case, j: usize, coefficients: &mut [i64]) -> i64
    requires past { 2 * case.now.states ≤ j }
    requires place { j < 2 * case.now.states + case.now.extras }
    requires long { length coefficients.old ≡ column_count (values_of case.now) }
    ensures { let k = values_of case.now in filled coefficients.new result ≡ over_states k (slice_index_or (faces k) j no_row) }
{
    let n = case.states;
    let face = case.extra[j - 2 * n];
    coefficients.fill(0);
    coefficients[0..n].copy_from_slice(&face.coefficients[0..n]);
    face.right
}

// Writes sign × the rows of an equation, and its own coefficient at the next state i. Limits and sign stand in clauses: they
// concern arguments of this one call.
fn fill_next(
    case: &Case,
    i: usize,
    equation: &StateEquation,
    sign: i64,
    own: i64,
    coefficients: &mut [i64],
)
    requires place { i < case.now.states }
    requires limits { equation_ok equation.now ≡ true }
    requires sign { Within 1 sign }
    requires long { length coefficients.old ≡ column_count (values_of case.now) }
    ensures { let k = case.now in coefficients.new ≡ equation_row (values_of k) i (equation_of k.states k.inputs k.pushes equation.now) sign own }
{
    let u = case.states;
    let w = u + case.inputs;
    let next = w + case.pushes;
    fill_unit(next + i, own, coefficients);
    fill_scaled(sign, &equation.a[0..case.states], &mut coefficients[0..u]);
    fill_scaled(sign, &equation.b[0..case.inputs], &mut coefficients[u..w]);
    fill_scaled(
        sign,
        &equation.e[0..case.pushes],
        &mut coefficients[w..next],
    );
}

// Row j of the next states.
pub(crate) fn next_row(case: &Case, j: usize, coefficients: &mut [i64]) -> i64
    requires place { j < 2 * case.now.states }
    requires long { length coefficients.old ≡ column_count (values_of case.now) }
    ensures { let k = values_of case.now in filled coefficients.new result ≡ slice_index_or (next_rows k 0 k.equations) j no_row }
{
    let i = j / 2;
    let equation = case.equations[i];
    if j % 2 == 0 {
        fill_next(case, i, &equation, -1, case.divisor, coefficients);
        return equation.constant + equation.leeway;
    }
    fill_next(case, i, &equation, 1, -case.divisor, coefficients);
    equation.leeway - equation.constant
}
