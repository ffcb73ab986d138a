// The system of a region of a closed loop, and its rows one by one.
ghost use Rattle.std.specs.Prelude.{◌≡◌, ◌<◌, ◌≤◌, true, length, slice_index_or};
ghost use Rattle.control.specs.Means.{meaning_of};
ghost use Rattle.control.specs.Answers.{present, region_of, no_row};
ghost use Rattle.case.specs.System.{over_commands};
ghost use Rattle.case.specs.Values.{values_of};
ghost use Rattle.system.specs.Answers.{most_system_rows, system_of};
ghost use Rattle.system.specs.Filled.{filled};

use super::closed_loop::ClosedLoop;
use super::kinds::{box_row, extra_row, next_row, push_row};
use control::Controller;

// The rows of a region and those of its case.
#[derive(Drop)]
pub struct System<'l, 'a, 't, C: Controller> {
    pub closed: &'l ClosedLoop<'a, 't, C>,
    pub region: usize,
    pub rows: usize,
    ghost there: { present (C.partition closed.now.controller.now) region ≡ true },
    ghost counted: { rows ≡ length (system_of (values_of closed.now.case.now) (meaning_of C.Controller closed.now.controller.now) region) },
    ghost few: { rows ≤ most_system_rows },
}

impl<'l, 'a, 't, C: Controller> System<'l, 'a, 't, C> {
    ghost use Rattle.system.specs.Systems.{case_of, control_of, rows_of, columns_of};

    // Row j, counted from 0: its coefficients go into the list, and its right side is the answer. The length of the list stands
    // in clauses, here and below, as in kinds: a struct can hold no fact about a list that it lends to be written.
    pub fn row(&self, j: usize, coefficients: &mut [i64]) -> i64
        requires place { j < self.now.rows }
        requires long { length coefficients.old ≡ columns_of self.now }
        ensures { filled coefficients.new result ≡ slice_index_or (rows_of self.now) j no_row }
    {
        let case = self.closed.case;
        let boxes = 2 * case.states;
        let faces = boxes + case.extras;
        let nexts = self.rows - 2 * case.states;
        let pushes = nexts - 2 * case.pushes;
        if j < boxes {
            box_row(case, j, coefficients)
        } else if j < faces {
            extra_row(case, j, coefficients)
        } else if j < pushes {
            self.region_row(j - faces, coefficients)
        } else if j < nexts {
            push_row(case, j - pushes, coefficients)
        } else {
            next_row(case, j - nexts, coefficients)
        }
    }

    // Row j of the region.
    fn region_row(&self, j: usize, coefficients: &mut [i64]) -> i64
        requires place { j < length (region_of (control_of self.now) self.now.region) }
        requires long { length coefficients.old ≡ columns_of self.now }
        ensures { filled coefficients.new result ≡ over_commands (case_of self.now) (slice_index_or (region_of (control_of self.now) self.now.region) j no_row) }
    {
        let case = self.closed.case;
        let width = case.states + case.inputs;
        coefficients.fill(0);
        self.closed
            .controller
            .row(self.region, j + 1, &mut coefficients[0..width])
            .unwrap()
    }
}
