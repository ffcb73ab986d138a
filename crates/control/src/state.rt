// The states of a law: how many values they have, and those at which its command is asked for.
ghost use Rattle.std.specs.Prelude.{◌≡◌, ◌≤◌, true, length, is_some, IfSome, Err, IfOk, IfErr};
ghost use Rattle.arith.specs.Bounds.{all_within};
ghost use Rattle.control.specs.Limits.{most_states, state_limit, states_ok};
ghost use Rattle.control.specs.Answers.{state_answer};

use super::fault::ControlFault;
use super::limits::{MOST_STATES, STATE_LIMIT};
use arith::all_within;

// How many states a law has.
#[derive(Clone, Copy)]
pub(crate) struct States {
    pub(crate) count: usize,
    ghost some: { 1 ≤ count },
    ghost few: { count ≤ most_states },
}

impl States {
    // So many states, if a law may have them.
    pub(crate) fn of(count: usize) -> Option<States>
        ensures made { is_some result ≡ states_ok count }
        ensures held { IfSome result (λ s. s.count ≡ count) }
    {
        if count < 1 || count > MOST_STATES {
            return None;
        }
        Some(States { count })
    }
}

// A state in range.
#[derive(Clone, Copy)]
pub(crate) struct State<'a> {
    pub(crate) values: &'a [i64],
    ghost few: { length values.now ≤ most_states },
    ghost small: { all_within state_limit values.now ≡ true },
}

impl<'a> State<'a> {
    // The values as a state of so many, if they are one in range.
    pub(crate) fn of(values: &'a [i64], states: States) -> Result<State<'a>, ControlFault>
        ensures taken { IfOk result (λ x. (x.values.now ≡ values.now) × (length values.now ≡ states.count)) }
        ensures refused { IfErr result (λ e. state_answer states.count values.now ≡ Err e) }
    {
        if values.len() != states.count {
            return Err(ControlFault::Length);
        }
        if !all_within(values, STATE_LIMIT) {
            return Err(ControlFault::Range);
        }
        Ok(State { values })
    }
}
