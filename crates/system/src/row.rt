// The rows of the system of a region, asked by their number.
ghost use Rattle.std.specs.Prelude.{◌≡◌};
ghost use Rattle.control.specs.Means.{meaning_of};
ghost use Rattle.case.specs.Values.{values_of};
ghost use Rattle.system.specs.Answers.{system_row_answer, system_row_fills};

use super::closed_loop::ClosedLoop;
use super::fault::SystemFault;
use case::values::Case;
use control::Controller;

// The right side of a row of the system, counted from 1; its coefficients go into the list. Case and controller stand apart:
// the call is defined, and refuses, for any two.
pub fn system_row<C: Controller>(
    case: &Case,
    controller: &C,
    region: usize,
    row: usize,
    coefficients: &mut [i64],
) -> Result<i64, SystemFault>
    ensures answer { result ≡ system_row_answer (values_of case.now) (meaning_of C.Controller controller.now) region row coefficients.old }
    ensures fills { coefficients.new ≡ system_row_fills (values_of case.now) (meaning_of C.Controller controller.now) region row coefficients.old }
{
    let closed = ClosedLoop::new(case, controller)?;
    let system = closed.system(region)?;
    if row < 1 || row > system.rows {
        return Err(SystemFault::Missing);
    }
    if coefficients.len() != case.column_count() {
        return Err(SystemFault::Length);
    }
    Ok(system.row(row - 1, coefficients))
}
