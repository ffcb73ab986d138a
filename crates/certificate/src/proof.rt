// The test of a proof of one face: limits, columns and the right side.
ghost use Rattle.std.specs.Prelude.{◌≡◌, true, length};
ghost use Rattle.control.specs.Answers.{present};
ghost use Rattle.control.specs.Means.{meaning_of};
ghost use Rattle.case.specs.Faces.{faces};
ghost use Rattle.case.specs.Values.{values_of};
ghost use Rattle.system.specs.Systems.{case_of, rows_of};
ghost use Rattle.certificate.specs.Tests.{face_of, equations_of, proof_answer, ProofForm};

use super::candidate::Candidate;
use super::fault::ProofFault;
use super::sums::add_up;
use case::values::Case;
use control::Controller;
use system::{ClosedLoop, System};

// Tests Farkas' equations: each column, then the right side.
fn test_equations<C: Controller>(
    system: &System<C>,
    face: usize,
    candidate: &Candidate,
) -> Result<(), ProofFault>
    requires face { present (faces (case_of system.now)) face ≡ true }
    requires long { length candidate.now.multipliers.now ≡ system.now.rows }
    ensures { result ≡ equations_of (case_of system.now) (rows_of system.now) (face_of (case_of system.now) face) candidate.now.scale candidate.now.multipliers.now }
{
    let case = system.closed.case;
    let width = case.states + case.inputs + case.pushes;
    let columns = width + case.states;
    // As many places as a system can have columns: nothing is allocated.
    let mut sums = [0; 12];
    let mut row = [0; 12];
    let sum = add_up(system, candidate, &mut sums[0..columns]);
    let right = system.row(face - 1, &mut row[0..columns]);
    if let Some(column) = candidate.first_unequal(&sums[0..columns], width, &row[0..case.states]) {
        return Err(ProofFault::Unequal(column));
    }
    if candidate.is_excess(sum, right) {
        return Err(ProofFault::Excess);
    }
    Ok(())
}

// Tests whether a scale and multipliers prove the face of the next state in the region; regions and faces count from 1. All
// parameters stand apart: the call is defined, and refuses, for any of them.
#[tactic(auto, using(crate::proofs::Tested::proof_form))]
pub fn test_proof<C: Controller>(
    case: &Case,
    controller: &C,
    region: usize,
    face: usize,
    scale: i64,
    multipliers: &[i64],
) -> Result<(), ProofFault>
    ensures value { result ≡ proof_answer (values_of case.now) (meaning_of C.Controller controller.now) region face scale multipliers.now }
    ensures form { ProofForm (values_of case.now) (meaning_of C.Controller controller.now) region face scale multipliers.now }
{
    let closed = ClosedLoop::new(case, controller)?;
    let system = closed.system(region)?;
    if face < 1 || face > case.face_count() {
        return Err(ProofFault::Missing);
    }
    if multipliers.len() != system.rows {
        return Err(ProofFault::Length);
    }
    let candidate = Candidate::new(scale, multipliers).ok_or(ProofFault::Range)?;
    test_equations(&system, face, &candidate)
}
