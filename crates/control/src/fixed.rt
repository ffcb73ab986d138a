// The fixed law: one command for each input, at every state.
ghost use Rattle.std.specs.Prelude.{◌≡◌, ◌<◌, true, length, is_some, IfSome, slice_index_or};
ghost use Rattle.arith.specs.Bounds.{Within, within, all_within};
ghost use Rattle.control.specs.Limits.{setting_limit};
ghost use Rattle.control.specs.Lines.{no_line};
ghost use Rattle.control.specs.PerInput.{items};
ghost use Rattle.control.specs.Fixed.{fixed_ok, fixed_lines, fixed_partition};
ghost use Rattle.control.specs.Lawful.FixedLaws.{ok_held, fixed_limits, fixed_cover};

use super::controller::Controller;
use super::fault::ControlFault;
use super::limits::{MOST_STATES, SETTING_LIMIT};
use super::lines::{command_line, fill_row};
use super::per_input::PerInput;
use super::state::{State, States};
use arith::all_within;

// How many rows there are for each input.
const ROWS: usize = 2;

#[derive(Drop)]
pub struct Fixed {
    states: States,
    commands: PerInput<i64>,
    ghost small: { all_within setting_limit (items commands) ≡ true },
}

impl Fixed {
    // The law with these commands, if they keep the limits.
    pub fn new(states: usize, commands: &[i64]) -> Option<Fixed>
        ensures made { is_some result ≡ fixed_ok states commands.now }
        ensures held { IfSome result (λ s. (s.states.count ≡ states) × (items s.commands ≡ commands.now)) }
    {
        // The states first: a list of commands may be long.
        let states = States::of(states)?;
        if !all_within(commands, SETTING_LIMIT) {
            return None;
        }
        let commands = PerInput::of(commands)?;
        Some(Fixed { states, commands })
    }
}

impl Controller for Fixed {
    ghost states = { λ s. s.states.count };

    ghost inputs = { λ s. length (items s.commands) };

    ghost partition = { λ s. fixed_partition s.states.count (items s.commands) };

    ghost feedback = { λ s _. items s.commands };

    ghost limits = { λ c. fixed_limits _ _ _ (ok_held c.states c.commands c.small) };

    ghost cover = { λ c. fixed_cover _ _ _ (ok_held c.states c.commands c.small) };

    fn sizes(&self) -> (usize, usize) {
        (self.states.count, self.commands.count())
    }

    fn regions(&self) -> usize {
        1
    }

    fn rows(&self, region: usize) -> Result<usize, ControlFault> {
        if region != 1 {
            return Err(ControlFault::Missing);
        }
        Ok(ROWS * self.commands.count())
    }

    fn row(
        &self,
        region: usize,
        row: usize,
        coefficients: &mut [i64],
    ) -> Result<i64, ControlFault> {
        if region != 1 || row < 1 || row > ROWS * self.commands.count() {
            return Err(ControlFault::Missing);
        }
        if coefficients.len() != self.states.count + self.commands.count() {
            return Err(ControlFault::Length);
        }
        let j = (row - 1) / ROWS;
        let line = command_line(self.commands.at(j), (row - 1) % ROWS);
        fill_row(
            &[0; MOST_STATES][..self.states.count],
            j,
            line,
            coefficients,
        );
        Ok(line.right)
    }

    fn command(&self, x: &[i64], u: &mut [i64]) -> Result<(), ControlFault> {
        if u.len() != self.commands.count() {
            return Err(ControlFault::Length);
        }
        State::of(x, self.states)?;
        self.commands.fill(u);
        Ok(())
    }
}
