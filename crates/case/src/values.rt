// The values of a case, within their limits.
ghost use Rattle.std.specs.Prelude.{◌≡◌, ◌≤◌, true, length, take, pos, ◌≤ℤ◌};
ghost use Rattle.control.specs.Limits.{most_states, most_inputs};
ghost use Rattle.case.specs.Limits.{most_pushes, most_extras, divisor_limit, all_equations_ok, all_bounds_ok, all_extras_ok, all_wide};

// One state: its bounds, leeway and constant, and its rows over the states, the inputs and the pushes.
#[derive(Clone, Copy)]
pub struct StateEquation {
    pub low: i64,
    pub high: i64,
    pub leeway: i64,
    pub constant: i64,
    pub a: [i64; 4],
    pub b: [i64; 2],
    pub e: [i64; 2],
}

// The bounds of one push.
#[derive(Clone, Copy)]
pub struct PushBounds {
    pub low: i64,
    pub high: i64,
}

// One extra face, coefficients × x ≤ right.
#[derive(Clone, Copy)]
pub struct ExtraFace {
    pub coefficients: [i64; 4],
    pub right: i64,
}

// A case that was read; the places of lacking states, inputs, pushes and extra faces hold 0. Fixed places with their counts
// beside: a caller lends them, and the library allocates nothing. `proofs` is the part of the
// text with the proof lines, and `line` the number of its first line.
#[derive(Clone, Copy)]
pub struct Case<'t> {
    pub states: usize,
    pub inputs: usize,
    pub pushes: usize,
    pub extras: usize,
    pub divisor: i64,
    pub equations: [StateEquation; 4],
    pub bounds: [PushBounds; 2],
    pub extra: [ExtraFace; 8],
    pub proofs: &'t [u8],
    pub line: u32,
    ghost sizes: { (1 ≤ states) × (states ≤ most_states) × (1 ≤ inputs) × (inputs ≤ most_inputs) },
    ghost counts: { (pushes ≤ most_pushes) × (extras ≤ most_extras) },
    ghost lengths: { (length equations ≡ most_states) × (length bounds ≡ most_pushes) × (length extra ≡ most_extras) },
    ghost divides: { (pos 1 ≤ℤ divisor) × (divisor ≤ℤ pos divisor_limit) },
    ghost limits: { (all_equations_ok equations ≡ true) × (all_bounds_ok bounds ≡ true) × (all_extras_ok extra ≡ true) },
    ghost wide: { all_wide divisor (take states equations) ≡ true },
}

impl Case<'_> {
    ghost use Rattle.std.specs.Prelude.{◌+◌, ◌*◌};
    ghost use Rattle.case.specs.Faces.{faces};
    ghost use Rattle.case.specs.System.{column_count};
    ghost use Rattle.case.specs.Values.{values_of};

    // How many faces the case has: two for each state, and the extra ones.
    #[tactic(auto, using(crate::proofs::Faces::case_faces))]
    pub fn face_count(&self) -> usize
        ensures value { result ≡ length (faces (values_of self.now)) }
        ensures sum { result ≡ 2 * self.now.states + self.now.extras }
    {
        2 * self.states + self.extras
    }

    // How many columns its systems have: states, inputs, pushes and next states.
    #[tactic(auto, using(crate::proofs::Faces::case_columns))]
    pub fn column_count(&self) -> usize
        ensures value { result ≡ column_count (values_of self.now) }
        ensures sum { result ≡ self.now.states + self.now.inputs + self.now.pushes + self.now.states }
    {
        self.states + self.inputs + self.pushes + self.states
    }
}
