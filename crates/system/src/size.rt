// The size of the system of a region.
ghost use Rattle.std.specs.Prelude.{◌≡◌, ◌≤◌, IfOk, OnOk};
ghost use Rattle.control.specs.Means.{meaning_of};
ghost use Rattle.control.specs.Answers.{region_of};
ghost use Rattle.case.specs.Values.{values_of};
ghost use Rattle.system.specs.Bridge.{Bridge};
ghost use Rattle.system.specs.Answers.{most_system_rows, most_columns, size_answer};

use super::closed_loop::ClosedLoop;
use super::fault::SystemFault;
use case::values::Case;
use control::Controller;

// How many rows and columns a system has.
#[derive(Clone, Copy)]
pub struct SystemSize {
    pub rows: usize,
    pub columns: usize,
}

// How many rows and columns the system of a region has. Its rows say exactly that a step is one of the loop. Case and
// controller stand apart, here and in the calls above: they are defined for any two.
pub fn system_size<C: Controller>(
    case: &Case,
    controller: &C,
    region: usize,
) -> Result<SystemSize, SystemFault>
    ensures answer { result ≡ size_answer (values_of case.now) (meaning_of C.Controller controller.now) region }
    ensures limits { IfOk result (λ size. (size.rows ≤ most_system_rows) × (size.columns ≤ most_columns)) }
    ensures bridge { OnOk result (Bridge (values_of case.now) (region_of (meaning_of C.Controller controller.now) region)) }
{
    let closed = ClosedLoop::new(case, controller)?;
    let system = closed.system(region)?;
    Ok(SystemSize {
        rows: system.rows,
        columns: case.column_count(),
    })
}
