// The numbers of a proof of one face.
ghost use Rattle.std.specs.Prelude.{◌≡◌, ◌+◌, ◌<◌, ◌≤◌, ◌&&◌, ◌↔◌, true, IsTrue, IsSome, IfSome, not, ◌++◌, length, pos, slice_index_or};
ghost use Rattle.std.specs.List.{AllByRecursion};
ghost use Rattle.arith.specs.Bounds.{Within};
ghost use Rattle.control.specs.Limits.{coefficient_limit, right_limit};
ghost use Rattle.case.specs.System.{none};
ghost use Rattle.system.specs.Answers.{most_columns};
ghost use Rattle.certificate.specs.Certificates.{scaled};
ghost use Rattle.certificate.specs.Tests.{multiplier_limit, in_limit, all_in_limit, first_unequal, low_enough};

// The most of a multiplier and of a scale, as in specs.
pub const MULTIPLIER_LIMIT: i64 = 1_000_000;

// A scale and multipliers within their limits.
#[derive(Drop)]
pub(crate) struct Candidate<'m> {
    pub(crate) scale: i64,
    pub(crate) multipliers: &'m [i64],
    ghost scale_small: { Within multiplier_limit scale },
    ghost multipliers_small: { all_in_limit multipliers.now ≡ true },
}

// Whether a multiplier or a scale keeps its limit.
fn in_limit(value: i64) -> bool
    ensures { result ≡ in_limit value }
{
    0 <= value && value <= MULTIPLIER_LIMIT
}

// Whether all of them do.
fn all_in_limit(values: &[i64]) -> bool
    ensures { result ≡ all_in_limit values.now }
{
    values.iter().all(|value| in_limit(*value))
}

impl<'m> Candidate<'m> {
    // The candidate, unless a number is outside its limit.
    pub(crate) fn new(scale: i64, multipliers: &'m [i64]) -> Option<Candidate<'m>>
        ensures within { IsSome result ↔ IsTrue (in_limit scale && all_in_limit multipliers.now) }
        ensures parts { IfSome result (λ p. (p.scale ≡ scale) × (p.multipliers.now ≡ multipliers.now)) }
    {
        if !in_limit(scale) || !all_in_limit(multipliers) {
            return None;
        }
        Some(Candidate { scale, multipliers })
    }

    // What the sum of column j, counted from 0, must be: 0 before the last columns, and scale × the face's coefficient in them.
    fn wanted(&self, width: usize, face: &[i64], j: usize) -> i64
        requires place { j < width + length face.now }
        requires small { AllByRecursion (Within coefficient_limit) face.now }
        ensures { result ≡ slice_index_or (scaled self.now.scale (none width ++ face.now)) j (pos 0) }
    {
        if j < width {
            return 0;
        }
        self.scale * face[j - width]
    }

    // The first column, counted from 1, whose sum is not what it must be. The face's limits stand in clauses, here and above:
    // it is lent as a row of a system, whose clause gives them.
    pub(crate) fn first_unequal(&self, sums: &[i64], width: usize, face: &[i64]) -> Option<u32>
        requires long { length sums.now ≡ width + length face.now }
        requires few { length sums.now ≤ most_columns }
        requires small { AllByRecursion (Within coefficient_limit) face.now }
        ensures { result ≡ first_unequal 1 sums.now (scaled self.now.scale (none width ++ face.now)) }
    {
        // A loop: of a chain with `find` the check did not show that it counts along both lists, as the contract does.
        for (j, sum) in sums.iter().enumerate() {
            if *sum != self.wanted(width, face, j) {
                return Some(j as u32 + 1);
            }
        }
        None
    }

    // Whether a sum of right sides is too large: above scale × the face's, or above -1 where the scale is 0.
    pub(crate) fn is_excess(&self, sum: i64, right: i64) -> bool
        requires { Within right_limit right }
        ensures { result ≡ not (low_enough sum self.now.scale right) }
    {
        sum > self.scale * right || (self.scale == 0 && sum > -1)
    }
}
