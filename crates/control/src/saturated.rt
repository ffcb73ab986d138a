// The saturated law: an affine command for each input, divided and clipped.
ghost use Rattle.std.specs.Prelude.{◌≡◌, ◌-◌, ◌<◌, [], ◌++◌, length, take, is_some, IfSome, IfOk, slice_index_or};
ghost use Rattle.std.specs.List.{AllByRecursion};
ghost use Rattle.arith.specs.Bounds.{Within};
ghost use Rattle.control.specs.Cover.{Holds};
ghost use Rattle.control.specs.Answers.{no_row};
ghost use Rattle.control.specs.Lines.{row_from};
ghost use Rattle.control.specs.PerInput.{items};
ghost use Rattle.control.specs.Held.{inputs_of, partition_of, rows_of, command_of};
ghost use Rattle.control.specs.Saturated.{inputs_ok, saturated_ok, saturated_command, index_of, digits_at, region_answer};
ghost use Rattle.control.specs.Lawful.SaturatedLaws.{ok_held, saturated_limits, saturated_cover};

use super::controller::Controller;
use super::fault::ControlFault;
use super::input::{Digit, Input, Limited, RADIX};
use super::lines::{Line, fill_row};
use super::per_input::PerInput;
use super::state::{State, States};

#[derive(Drop)]
pub struct Saturated {
    states: States,
    inputs: PerInput<Limited>,
}

// A row of a region: the input that it speaks of, its place, counted from 0, and its line.
#[derive(Clone, Copy)]
struct Placed {
    input: Limited,
    place: usize,
    line: Line,
}

impl PerInput<Input> {
    // The inputs, if each of them keeps its limits.
    fn limited(&self) -> Option<PerInput<Limited>>
        ensures made { is_some result ≡ inputs_ok (items self.now) }
        ensures held { IfSome result (λ p. inputs_of p ≡ items self.now) }
    {
        match self {
            PerInput::One(a) => Some(PerInput::One(a.limited()?)),
            PerInput::Two(a, b) => Some(PerInput::Two(a.limited()?, b.limited()?)),
        }
    }
}

impl PerInput<Limited> {
    // The digits at the state x.
    fn digits_at(&self, x: &State) -> PerInput<Digit>
        ensures { items result ≡ digits_at (length x.now.values.now) (inputs_of self.now) x.now.values.now }
    {
        self.map(|input| input.digit_at(x))
    }

    // The command at the state x.
    fn command_at(&self, x: &State) -> PerInput<i64>
        ensures { items result ≡ saturated_command (length x.now.values.now) (inputs_of self.now) x.now.values.now }
    {
        self.map(|input| input.part_at(x))
    }
}

impl PerInput<Digit> {
    // The index of the region with the digits, the first input's lowest.
    fn index(&self) -> usize
        ensures { result ≡ index_of (items self.now) }
    {
        match self {
            PerInput::One(d) => *d as usize,
            PerInput::Two(d, e) => *d as usize + RADIX * (*e as usize),
        }
    }
}

impl Saturated {
    // The law with these inputs, if they keep the limits.
    pub fn new(states: usize, inputs: &[Input]) -> Option<Saturated>
        ensures made { is_some result ≡ saturated_ok states inputs.now }
        ensures held { IfSome result (λ s. (s.states.count ≡ states) × (inputs_of s.inputs ≡ inputs.now)) }
    {
        let states = States::of(states)?;
        let inputs = PerInput::of(inputs)?.limited()?;
        Some(Saturated { states, inputs })
    }

    // How many regions the law has.
    fn region_count(&self) -> usize
        ensures { result ≡ length (partition_of self.now) }
    {
        match self.inputs {
            PerInput::One(_) => RADIX,
            PerInput::Two(_, _) => RADIX * RADIX,
        }
    }

    // How many rows the region with the index r has.
    fn row_count(&self, r: usize) -> usize
        ensures { result ≡ length (rows_of self.now r) }
    {
        let first = Digit::lowest(r);
        let second = Digit::lowest(r / RADIX);
        match &self.inputs {
            PerInput::One(a) => a.rows(first),
            PerInput::Two(a, b) => a.rows(first) + b.rows(second),
        }
    }

    // Row k, counted from 0, of the region with the index r.
    fn placed(&self, r: usize, k: usize) -> Placed
        requires { k < length (rows_of self.now r) }
        ensures row { slice_index_or (rows_of self.now r) k no_row ≡ row_from (take self.now.states.count result.input.input.gains) (length (inputs_of self.now.inputs)) result.place result.line }
        ensures place { result.place < length (inputs_of self.now.inputs) }
        ensures sign { Within 1 result.line.sign }
    {
        let first = Digit::lowest(r);
        match &self.inputs {
            PerInput::Two(a, b) if a.rows(first) <= k => Placed {
                input: *b,
                place: 1,
                line: b.line(Digit::lowest(r / RADIX), k - a.rows(first)),
            },
            PerInput::One(a) | PerInput::Two(a, _) => Placed {
                input: *a,
                place: 0,
                line: a.line(first, k),
            },
        }
    }

    // The number of the region at the state x; all its rows hold there for the command.
    pub fn region(&self, x: &[i64]) -> Result<usize, ControlFault>
        ensures answer { result ≡ region_answer self.now.states.count (inputs_of self.now.inputs) x.now }
        ensures holds { IfOk result (λ k. AllByRecursion (Holds (x.now ++ command_of self.now x.now)) (slice_index_or (partition_of self.now) (k - 1) [])) }
    {
        let x = State::of(x, self.states)?;
        Ok(1 + self.inputs.digits_at(&x).index())
    }
}

impl Controller for Saturated {
    ghost states = { λ s. s.states.count };

    ghost inputs = { λ s. length (inputs_of s.inputs) };

    ghost partition = { partition_of };

    ghost feedback = { command_of };

    ghost limits = { λ c. saturated_limits _ _ _ (ok_held c.states c.inputs) };

    ghost cover = { λ c. saturated_cover _ _ _ (ok_held c.states c.inputs) };

    fn sizes(&self) -> (usize, usize) {
        (self.states.count, self.inputs.count())
    }

    fn regions(&self) -> usize {
        self.region_count()
    }

    fn rows(&self, region: usize) -> Result<usize, ControlFault> {
        if region < 1 || region > self.region_count() {
            return Err(ControlFault::Missing);
        }
        Ok(self.row_count(region - 1))
    }

    // The questions are judged as in the fixed law, by other numbers of regions and rows: no one test serves both.
    fn row(
        &self,
        region: usize,
        row: usize,
        coefficients: &mut [i64],
    ) -> Result<i64, ControlFault> {
        if region < 1 || region > self.region_count() {
            return Err(ControlFault::Missing);
        }
        if row < 1 || row > self.row_count(region - 1) {
            return Err(ControlFault::Missing);
        }
        if coefficients.len() != self.states.count + self.inputs.count() {
            return Err(ControlFault::Length);
        }
        let placed = self.placed(region - 1, row - 1);
        fill_row(
            &placed.input.input.gains[..self.states.count],
            placed.place,
            placed.line,
            coefficients,
        );
        Ok(placed.line.right)
    }

    fn command(&self, x: &[i64], u: &mut [i64]) -> Result<(), ControlFault> {
        if u.len() != self.inputs.count() {
            return Err(ControlFault::Length);
        }
        let x = State::of(x, self.states)?;
        self.inputs.command_at(&x).fill(u);
        Ok(())
    }
}
