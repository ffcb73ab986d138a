// The closed loop of a case and a controller.
ghost use Rattle.std.specs.Prelude.{◌≡◌, ◌≤◌, ◌↔◌, IsTrue, IsOk, IfOk, IfErr, OnOk};
ghost use Rattle.control.specs.Answers.{present, region_of};
ghost use Rattle.control.specs.Means.{meaning_of};
ghost use Rattle.case.specs.Values.{values_of};
ghost use Rattle.case.specs.System.{column_count};
ghost use Rattle.system.specs.Answers.{fits, most_system_rows, most_columns};
ghost use Rattle.system.specs.Bridge.{Bridge};
ghost use Rattle.system.specs.declared.fault.SystemFault.TheVariants.{Sizes, Missing};

use super::fault::SystemFault;
use super::system::System;
use case::values::Case;
use control::Controller;

// A case with a controller of as many states and inputs.
#[derive(Drop)]
pub struct ClosedLoop<'a, 't, C: Controller> {
    pub case: &'a Case<'t>,
    pub controller: &'a C,
    ghost states: { C.states controller.now ≡ case.now.states },
    ghost inputs: { C.inputs controller.now ≡ case.now.inputs },
}

impl<'a, 't, C: Controller> ClosedLoop<'a, 't, C> {
    // The loop of a case and a controller of the same sizes.
    pub fn new(case: &'a Case<'t>, controller: &'a C) -> Result<ClosedLoop<'a, 't, C>, SystemFault>
        ensures fits { IsOk result ↔ IsTrue (fits (values_of case.now) (meaning_of C.Controller controller.now)) }
        ensures parts { IfOk result (λ l. (l.case.now ≡ case.now) × (l.controller.now ≡ controller.now)) }
        ensures sizes { IfErr result (λ fault. fault ≡ Sizes) }
    {
        let (states, inputs) = controller.sizes();
        if states != case.states || inputs != case.inputs {
            return Err(SystemFault::Sizes);
        }
        Ok(ClosedLoop { case, controller })
    }

    // The system of a region that the controller has. Its rows say exactly that a step is one of the loop.
    pub fn system<'l>(&'l self, region: usize) -> Result<System<'l, 'a, 't, C>, SystemFault>
        ensures there { IsOk result ↔ IsTrue (present (C.partition self.now.controller.now) region) }
        ensures parts { IfOk result (λ s. (s.closed.now ≡ self.now) × (s.region ≡ region)) }
        ensures missing { IfErr result (λ fault. fault ≡ Missing) }
        ensures limits { IfOk result (λ s. (s.rows ≤ most_system_rows) × (column_count (values_of s.closed.now.case.now) ≤ most_columns)) }
        ensures bridge { OnOk result (Bridge (values_of self.now.case.now) (region_of (meaning_of C.Controller self.now.controller.now) region)) }
    {
        let case = self.case;
        let rows = self
            .controller
            .rows(region)
            .map_err(|_| SystemFault::Missing)?;
        Ok(System {
            closed: self,
            region,
            rows: case.face_count() + rows + 2 * case.pushes + 2 * case.states,
        })
    }
}
