// What the rows of a case text write: equations, bounds and extra faces.
ghost use Rattle.std.specs.Prelude.{◌≡◌, ℕ, ◌+◌, ◌<◌, ◌≤◌, List, map, take, drop, pos};
ghost use Rattle.text.specs.Blocks.{filled};
ghost use Rattle.case.specs.Stored.{Makes, bounds_from, no_equation, no_bounds, no_extra};

use crate::rows::CaseRows;
use crate::sizes::Sizes;
use crate::values::{ExtraFace, PushBounds, StateEquation};

// What stands in the place of a lacking state, push or extra face.
pub(crate) const NO_EQUATION: StateEquation = StateEquation {
    low: 0,
    high: 0,
    leeway: 0,
    constant: 0,
    a: [0; 4],
    b: [0; 2],
    e: [0; 2],
};

pub(crate) const NO_BOUNDS: PushBounds = PushBounds { low: 0, high: 0 };

pub(crate) const NO_EXTRA: ExtraFace = ExtraFace {
    coefficients: [0; 4],
    right: 0,
};

// What is made for the first `count` places, and a blank in each further place. The room is asked for here, as it concerns a
// const parameter and a count of this one call.
fn places<T: Copy, F: Fn(usize) -> T, const N: usize>(count: usize, blank: T, make: F) -> [T; N]
    requires room { count ≤ N }
    requires callable { (i : ℕ) → i < count → F.pre make i }
    ensures { (ys : List T) → Makes (F.post make) count blank ys → result ≡ filled N blank (take count ys) }
{
    let mut places = [blank; N];
    // An index loop: with `from_fn` or `iter_mut` and `enumerate` the proof did not know what stands at a place afterwards.
    for i in 0..count {
        places[i] = make(i);
    }
    places
}

// `count` numbers of a row from `from` on, then zeros. The room is asked for here too, for the same reason.
fn part<const N: usize>(row: &[i64; 8], from: usize, count: usize) -> [i64; N]
    requires within { from + count ≤ 8 }
    requires room { count ≤ N }
    ensures { result ≡ filled N (pos 0) (take count (drop from row.now)) }
{
    let mut part = [0; N];
    part[..count].copy_from_slice(&row[from..from + count]);
    part
}

// The bounds of a push, by its row.
fn push_bounds(row: &[i64; 8]) -> PushBounds
    ensures { result ≡ bounds_from row.now }
{
    PushBounds {
        low: row[0],
        high: row[1],
    }
}

impl Sizes {
    ghost use Rattle.case.specs.Stored.{extra_from, equation_from, padded_extra, padded_equation};

    // A state, by its own row and its row of dynamics.
    fn equation(self, state: &[i64; 8], dynamics: &[i64; 8]) -> StateEquation
        ensures { result ≡ padded_equation (equation_from self.states self.inputs self.pushes state.now dynamics.now) }
    {
        StateEquation {
            low: state[0],
            high: state[1],
            leeway: state[2],
            constant: state[3],
            a: part(dynamics, 0, self.states),
            b: part(dynamics, self.states, self.inputs),
            e: part(dynamics, self.states + self.inputs, self.pushes),
        }
    }

    // An extra face, by its row.
    fn extra(self, row: &[i64; 8]) -> ExtraFace
        ensures { result ≡ padded_extra (extra_from self.states row.now) }
    {
        ExtraFace {
            coefficients: part(row, 0, self.states),
            right: row[self.states],
        }
    }
}

impl CaseRows {
    ghost use Rattle.case.specs.Stored.{extra_from, equations_from, padded_extra, padded_equation};

    // The states' equations.
    pub(crate) fn equations(&self, sizes: Sizes) -> [StateEquation; 4]
        ensures { result ≡ filled 4 no_equation (take sizes.states (map padded_equation (equations_from sizes.states sizes.inputs sizes.pushes self.now.states self.now.dynamics))) }
    {
        places(
            sizes.states,
            NO_EQUATION,
            |i| sizes.equation(&self.states[i], &self.dynamics[i]),
        )
    }

    // The pushes' bounds.
    pub(crate) fn bounds(&self, sizes: Sizes) -> [PushBounds; 2]
        ensures { result ≡ filled 2 no_bounds (take sizes.pushes (map bounds_from self.now.pushes)) }
    {
        places(sizes.pushes, NO_BOUNDS, |i| push_bounds(&self.pushes[i]))
    }

    // The extra faces.
    pub(crate) fn extra_faces(&self, sizes: Sizes) -> [ExtraFace; 8]
        ensures { result ≡ filled 8 no_extra (take sizes.extras (map padded_extra (map (extra_from sizes.states) self.now.extras))) }
    {
        places(sizes.extras, NO_EXTRA, |i| sizes.extra(&self.extras[i]))
    }
}
