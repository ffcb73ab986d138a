// Rows that speak of one input.
ghost use Rattle.std.specs.Prelude.{◌≡◌, ◌+◌, ◌-◌, ◌<◌, true, length, slice_index_or};
ghost use Rattle.std.specs.List.{AllByRecursion};
ghost use Rattle.arith.specs.Bounds.{Within, within};
ghost use Rattle.control.specs.Limits.{coefficient_limit, setting_limit};
ghost use Rattle.control.specs.Lines.{no_line, spread};
ghost use Rattle.control.specs.Fixed.{fixed_lines};

// One row of an input: sign × gains over the states, `own` at the input.
// The sign is a number, -1, 0 or 1, and no enum: the row is a product with it, in the code as in its definition.
#[derive(Clone, Copy)]
pub struct Line {
    pub sign: i64,
    pub own: i64,
    pub right: i64,
}

// Writes the coefficients of a line of input j, counted from 0. Limits and room stand in clauses: they concern lists of this one
// call. So does the sign: the definitions make a line of any numbers, so `Line` can keep no fact.
pub fn fill_row(gains: &[i64], j: usize, line: Line, coefficients: &mut [i64])
    requires room { length gains.now + j < length coefficients.old }
    requires small { AllByRecursion (Within coefficient_limit) gains.now }
    requires sign { Within 1 line.sign }
    ensures { coefficients.new ≡ spread gains.now (length coefficients.old - length gains.now) j line }
{
    coefficients.fill(0);
    // Written by index: what an adapter of `iter_mut` writes is not known to the proof afterwards.
    for (i, gain) in gains.iter().enumerate() {
        coefficients[i] = line.sign * *gain;
    }
    coefficients[gains.len() + j] = line.own;
}

// The first or the second row of an input with the command u: u at the most, and u at the least. That there is a row k is asked
// in a clause: how many there are differs by the digit.
pub(crate) fn command_line(u: i64, k: usize) -> Line
    requires small { within setting_limit u ≡ true }
    requires place { k < length (fixed_lines u) }
    ensures line { result ≡ slice_index_or (fixed_lines u) k no_line }
    ensures sign { Within 1 result.sign }
{
    match k {
        0 => Line {
            sign: 0,
            own: 1,
            right: u,
        },
        _ => Line {
            sign: 0,
            own: -1,
            right: -u,
        },
    }
}
