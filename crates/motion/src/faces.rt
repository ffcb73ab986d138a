// The test of a state against the faces of a case.
ghost use Rattle.std.specs.Prelude.{◌≡◌, ℕ, ◌+◌, ◌*◌, ◌≤◌, true, map, length, Ok, Err};
ghost use Rattle.control.specs.Limits.{most_states};
ghost use Rattle.case.specs.Faces.{Inside, box_faces, extra_face};
ghost use Rattle.case.specs.Limits.{extra_ok};
ghost use Rattle.case.specs.Values.{extra_of, values_of};
ghost use Rattle.motion.specs.declared.faces.Outside.TheVariants.{Face};
ghost use Rattle.motion.specs.Tests.{FirstFailing, holds_test, rows_test, state_test};

use arith::wide_product;
use case::values::{Case, ExtraFace};

// Why a list of values is not inside: its length, or the first face that does not hold, counted from 1.
#[derive(Clone, Copy, PartialEq, Eq, Debug)]
pub enum Outside {
    Length,
    Face(u32),
}

// Tests the bounds of each state. That there are as many values as states is said twice, here and below, by the one caller's test.
fn test_bounds(case: &Case, x: &[i64]) -> Result<(), Outside>
    requires { length x.now ≡ case.now.states }
    ensures { let c = case.now in result ≡ rows_test x.now 1 (box_faces c.states 0 (values_of c).equations) }
{
    // By index into the equations, not by `zip`: its items come to the proof without the range of their type.
    for (i, value) in x.iter().enumerate() {
        let before = 2 * i as u32;
        if *value > case.equations[i].high {
            return Err(Outside::Face(before + 1));
        }
        if *value < case.equations[i].low {
            return Err(Outside::Face(before + 2));
        }
    }
    Ok(())
}

// Whether the extra face holds.
fn extra_holds(face: ExtraFace, x: &[i64]) -> bool
    requires limits { extra_ok face ≡ true }
    requires few { length x.now ≤ most_states }
    ensures { result ≡ holds_test x.now (extra_face (extra_of (length x.now) face)) }
{
    wide_product(&face.coefficients[..x.len()], x) <= i128::from(face.right)
}

// Tests each extra face.
fn test_extras(case: &Case, x: &[i64]) -> Result<(), Outside>
    requires { length x.now ≡ case.now.states }
    ensures { let c = case.now in result ≡ rows_test x.now (2 * c.states + 1) (map extra_face (values_of c).extra) }
{
    let before = 2 * case.states as u32;
    for (k, face) in case.extra[..case.extras].iter().enumerate() {
        if !extra_holds(*face, x) {
            return Err(Outside::Face(before + k as u32 + 1));
        }
    }
    Ok(())
}

// Tests whether the values are a state inside every face.
pub fn test_state(case: &Case, x: &[i64]) -> Result<(), Outside>
    ensures value { result ≡ state_test (values_of case.now) x.now }
    ensures inside { (result ≡ Ok tt → Inside (values_of case.now) x.now) × (Inside (values_of case.now) x.now → result ≡ Ok tt) }
    ensures first { (j : ℕ) → result ≡ Err (Face j) → FirstFailing (values_of case.now) x.now j }
{
    if x.len() != case.states {
        return Err(Outside::Length);
    }
    test_bounds(case, x)?;
    test_extras(case, x)
}
