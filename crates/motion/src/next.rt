// The next value of a state: what it aims at, and the values that its rounding permits.
ghost use Rattle.std.specs.Prelude.{◌≡◌, ◌<◌, ◌≤◌, true, length, pos, ◌+ℤ◌, ◌*ℤ◌, ◌≤ℤ◌, IfSome, slice_index_or};
ghost use Rattle.std.specs.List.{AllByRecursion};
ghost use Rattle.arith.specs.Bounds.{Within, all_within};
ghost use Rattle.control.specs.Limits.{most_states, most_inputs, state_limit, command_limit};
ghost use Rattle.case.specs.Limits.{most_pushes, bound_limit, equation_ok};
ghost use Rattle.case.specs.Next.{aim, lowest, highest};
ghost use Rattle.case.specs.Values.{equation_of, values_of};
ghost use Rattle.motion.specs.Moves.{permitted_values, Exactly, aim_limit, no_equation};

use super::range::Permitted;
use arith::wide_product;
use case::values::{Case, StateEquation};

// (v - leeway) / divisor, rounded up. The three numbers are those of `permitted`, which is defined for any, so no struct holds
// them here and below.
fn lowest_value(divisor: i64, leeway: i64, v: i64) -> i128
    requires { pos 1 ≤ℤ divisor }
    ensures { result ≡ lowest divisor leeway v }
{
    -(i128::from(leeway) - i128::from(v)).div_euclid(i128::from(divisor))
}

// (v + leeway) / divisor, rounded down.
fn highest_value(divisor: i64, leeway: i64, v: i64) -> i128
    requires { pos 1 ≤ℤ divisor }
    ensures { result ≡ highest divisor leeway v }
{
    (i128::from(v) + i128::from(leeway)).div_euclid(i128::from(divisor))
}

// The permitted next values of a state that aims at v.
pub fn permitted(divisor: i64, leeway: i64, v: i64) -> Option<Permitted>
    ensures value { result ≡ permitted_values divisor leeway v }
    ensures exactly { IfSome result (λ p. Exactly divisor leeway v p) }
    ensures some { IfSome result (λ p. pos 0 ≤ℤ leeway → divisor ≤ℤ (pos 2 *ℤ leeway +ℤ pos 1) → p.lowest ≤ℤ p.highest) }
{
    if divisor < 1 {
        return None;
    }
    Some(Permitted {
        lowest: lowest_value(divisor, leeway, v),
        highest: highest_value(divisor, leeway, v),
    })
}

// The sum of the products of a state and its constant.
fn total(ax: i128, bu: i128, ew: i128, constant: i64) -> i64
    requires states { Within aim_limit ax }
    requires inputs { Within aim_limit bu }
    requires pushes { Within aim_limit ew }
    requires sum { Within aim_limit (ax +ℤ bu +ℤ ew +ℤ constant) }
    ensures { result ≡ ax +ℤ bu +ℤ ew +ℤ constant }
{
    (ax + bu + ew + i128::from(constant)) as i64
}

// One step to be aimed at: the state, the command and the pushes, each value within its range.
#[derive(Clone, Copy)]
pub struct Step<'a> {
    pub state: &'a [i64],
    pub command: &'a [i64],
    pub pushes: &'a [i64],
    ghost small_state: { all_within state_limit state.now ≡ true },
    ghost small_command: { all_within command_limit command.now ≡ true },
    ghost small_pushes: { all_within bound_limit pushes.now ≡ true },
}

impl<'a> Step<'a> {
    // The step of these values, each known to be within its range, as a controller's laws and a case's faces say of theirs.
    #[tactic(auto, using(arith::proofs::Bounds::test_from_all))]
    pub fn new(state: &'a [i64], command: &'a [i64], pushes: &'a [i64]) -> Step<'a>
        requires small_state { AllByRecursion (Within state_limit) state.now }
        requires small_command { AllByRecursion (Within command_limit) command.now }
        requires small_pushes { AllByRecursion (Within bound_limit) pushes.now }
        ensures state { result.state.now ≡ state.now }
        ensures command { result.command.now ≡ command.now }
        ensures pushes { result.pushes.now ≡ pushes.now }
    {
        Step {
            state,
            command,
            pushes,
        }
    }
}

// What a state aims at, by its equation.
fn aim_of(s: StateEquation, step: &Step) -> i64
    requires limits { equation_ok s ≡ true }
    requires states { length step.now.state.now ≤ most_states }
    requires inputs { length step.now.command.now ≤ most_inputs }
    requires pushes { length step.now.pushes.now ≤ most_pushes }
    ensures value { let t = step.now in result ≡ aim (equation_of (length t.state.now) (length t.command.now) (length t.pushes.now) s) t.state.now t.command.now t.pushes.now }
    ensures bound { Within aim_limit result }
{
    let Step {
        state: x,
        command: u,
        pushes: w,
    } = *step;
    let ax = wide_product(&s.a[..x.len()], x);
    let bu = wide_product(&s.b[..u.len()], u);
    let ew = wide_product(&s.e[..w.len()], w);
    total(ax, bu, ew, s.constant)
}

// What a state of the case, counted from 0, aims at: v of a step.
pub fn aimed(case: &Case, state: usize, step: &Step) -> i64
    requires place { state < case.now.states }
    requires states { length step.now.state.now ≡ case.now.states }
    requires inputs { length step.now.command.now ≡ case.now.inputs }
    requires pushes { length step.now.pushes.now ≡ case.now.pushes }
    ensures value { result ≡ aim (slice_index_or (values_of case.now).equations state no_equation) step.now.state.now step.now.command.now step.now.pushes.now }
    ensures bound { Within aim_limit result }
{
    aim_of(case.equations[state], step)
}
