// One input of a saturated law: its limits, its digit and its part of the command.
ghost use Rattle.std.specs.Prelude.{◌≡◌, ◌%◌, ◌<◌, true, length, slice_index_or, is_some, IfSome};
ghost use Rattle.arith.specs.Bounds.{Within};
ghost use Rattle.control.specs.Lines.{no_line};
ghost use Rattle.control.specs.declared.input.Digit.TheVariants.{Low, Middle, High};
ghost use Rattle.control.specs.Saturated.{gains_ok, divisor_ok, bounds_ok, input_ok, value, quotient, part, low_edge, high_edge, digit_of, lines, radix, numbered};

use super::limits::{GAIN_LIMIT, MOST_DIVISOR, MOST_STATES, OFFSET_LIMIT, SETTING_LIMIT};
use super::lines::{Line, command_line};
use super::state::State;
use arith::{all_within, dot_product, is_within};

// How many digits there are.
pub(crate) const RADIX: usize = 3;

// The command floor((gains × x + offset) / divisor), clipped to low..high. A place for each state there can be: nothing is
// allocated.
#[derive(Clone, Copy)]
pub struct Input {
    pub gains: [i64; MOST_STATES],
    pub offset: i64,
    pub divisor: i64,
    pub low: i64,
    pub high: i64,
}

// Whether an input is low, high or neither: where its quotient lies below, above or within its bounds.
#[derive(Clone, Copy)]
pub(crate) enum Digit {
    Low,
    Middle,
    High,
}

impl Digit {
    // The lowest digit of the index r; a match, since no derive makes a variant of a number.
    pub(crate) fn lowest(r: usize) -> Digit
        ensures { result ≡ numbered (r % radix) }
    {
        match r % RADIX {
            0 => Digit::Low,
            1 => Digit::Middle,
            _ => Digit::High,
        }
    }
}

impl Input {
    // Whether the gains and the offset keep their limits.
    fn has_small_gains(&self) -> bool
        ensures { result ≡ gains_ok self.now }
    {
        all_within(&self.gains, GAIN_LIMIT) && is_within(self.offset, OFFSET_LIMIT)
    }

    // Whether the divisor is in its range.
    fn has_divisor(&self) -> bool
        ensures { result ≡ divisor_ok self.now }
    {
        1 <= self.divisor && self.divisor <= MOST_DIVISOR
    }

    // Whether the bounds of the command keep their limits and are in order.
    fn has_bounds(&self) -> bool
        ensures { result ≡ bounds_ok self.now }
    {
        is_within(self.low, SETTING_LIMIT)
            && is_within(self.high, SETTING_LIMIT)
            && self.low <= self.high
    }

    // Whether the input keeps its limits.
    fn is_ok(&self) -> bool
        ensures { result ≡ input_ok self.now }
    {
        self.has_small_gains() && self.has_divisor() && self.has_bounds()
    }

    // The input, if it keeps its limits.
    pub(crate) fn limited(&self) -> Option<Limited>
        ensures made { is_some result ≡ input_ok self.now }
        ensures held { IfSome result (λ l. l.input ≡ self.now) }
    {
        if !self.is_ok() {
            return None;
        }
        Some(Limited { input: *self })
    }
}

// An input that keeps its limits.
#[derive(Clone, Copy)]
pub(crate) struct Limited {
    pub(crate) input: Input,
    ghost kept: { input_ok input ≡ true },
}

impl Limited {
    // The value gains × x + offset.
    fn value(&self, x: &State) -> i64
        ensures { result ≡ value (length x.now.values.now) self.now.input x.now.values.now }
    {
        dot_product(&self.input.gains[..x.values.len()], x.values) + self.input.offset
    }

    // The greatest value at which the input is low.
    fn low_edge(&self) -> i64
        ensures { result ≡ low_edge self.now.input }
    {
        self.input.divisor * self.input.low - 1
    }

    // The least value at which the input is high.
    fn high_edge(&self) -> i64
        ensures { result ≡ high_edge self.now.input }
    {
        self.input.divisor * (self.input.high + 1)
    }

    // The digit at the value v.
    fn digit(&self, v: i64) -> Digit
        ensures { result ≡ digit_of self.now.input v }
    {
        match v {
            v if v <= self.low_edge() => Digit::Low,
            v if v >= self.high_edge() => Digit::High,
            _ => Digit::Middle,
        }
    }

    // v / divisor, rounded down.
    fn quotient(&self, v: i64) -> i64
        ensures { result ≡ quotient v self.now.input.divisor }
    {
        v.div_euclid(self.input.divisor)
    }

    // The part of the command at the value v.
    fn part(&self, v: i64) -> i64
        ensures { result ≡ part self.now.input v }
    {
        self.input.low.max(self.input.high.min(self.quotient(v)))
    }

    // The digit at the state x.
    pub(crate) fn digit_at(&self, x: &State) -> Digit
        ensures { result ≡ digit_of self.now.input (value (length x.now.values.now) self.now.input x.now.values.now) }
    {
        self.digit(self.value(x))
    }

    // The part of the command at the state x.
    pub(crate) fn part_at(&self, x: &State) -> i64
        ensures { result ≡ part self.now.input (value (length x.now.values.now) self.now.input x.now.values.now) }
    {
        self.part(self.value(x))
    }

    // How many rows the input has with the digit.
    pub(crate) fn rows(&self, digit: Digit) -> usize
        ensures { result ≡ length (lines self.now.input digit) }
    {
        match digit {
            Digit::Low => 3,
            Digit::Middle => 4,
            Digit::High => 3,
        }
    }

    // Row k, counted from 0, of an input that is low. That there is a row k stands in clauses, here and below: each digit has
    // another number of rows, so no type of k says it.
    fn low_line(&self, k: usize) -> Line
        requires { k < length (lines self.now.input Low) }
        ensures { result ≡ slice_index_or (lines self.now.input Low) k no_line }
    {
        match k {
            0 | 1 => command_line(self.input.low, k),
            _ => Line {
                sign: 1,
                own: 0,
                right: self.low_edge() - self.input.offset,
            },
        }
    }

    // Row k, counted from 0, of an input that is neither low nor high.
    fn middle_line(&self, k: usize) -> Line
        requires { k < length (lines self.now.input Middle) }
        ensures { result ≡ slice_index_or (lines self.now.input Middle) k no_line }
    {
        match k {
            0 => Line {
                sign: -1,
                own: self.input.divisor,
                right: self.input.offset,
            },
            1 => Line {
                sign: 1,
                own: -self.input.divisor,
                right: self.input.divisor - 1 - self.input.offset,
            },
            2 => Line {
                sign: 0,
                own: 1,
                right: self.input.high,
            },
            _ => Line {
                sign: 0,
                own: -1,
                right: -self.input.low,
            },
        }
    }

    // Row k, counted from 0, of an input that is high.
    fn high_line(&self, k: usize) -> Line
        requires { k < length (lines self.now.input High) }
        ensures { result ≡ slice_index_or (lines self.now.input High) k no_line }
    {
        match k {
            0 | 1 => command_line(self.input.high, k),
            _ => Line {
                sign: -1,
                own: 0,
                right: self.input.offset - self.high_edge(),
            },
        }
    }

    // Row k, counted from 0, of the input with the digit.
    pub(crate) fn line(&self, digit: Digit, k: usize) -> Line
        requires { k < length (lines self.now.input digit) }
        ensures line { result ≡ slice_index_or (lines self.now.input digit) k no_line }
        ensures sign { Within 1 result.sign }
    {
        match digit {
            Digit::Low => self.low_line(k),
            Digit::Middle => self.middle_line(k),
            Digit::High => self.high_line(k),
        }
    }
}
