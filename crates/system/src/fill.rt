// Lists of coefficients: one number among zeros, and a multiple of other coefficients.
ghost use Rattle.std.specs.Prelude.{◌≡◌, ◌<◌, map, length, ◌*ℤ◌};
ghost use Rattle.std.specs.List.{AllByRecursion};
ghost use Rattle.arith.specs.Bounds.{Within};
ghost use Rattle.control.specs.Limits.{coefficient_limit};
ghost use Rattle.case.specs.Faces.{unit};
ghost use Rattle.case.specs.Limits.{bound_limit};
ghost use Rattle.system.specs.Filled.{filled, bound_row};

// Writes one value, and 0 at every other place.
pub(crate) fn fill_unit(place: usize, value: i64, coefficients: &mut [i64])
    requires { place < length coefficients.old }
    ensures { coefficients.new ≡ unit (length coefficients.old) place value }
{
    coefficients.fill(0);
    coefficients[place] = value;
}

// Row j of the bounds of a variable: the high bound for an even j, the low one for an odd j.
pub(crate) fn bound_row(
    column: usize,
    low: i64,
    high: i64,
    j: usize,
    coefficients: &mut [i64],
) -> i64
    requires place { column < length coefficients.old }
    requires low { Within bound_limit low }
    ensures { filled coefficients.new result ≡ bound_row (length coefficients.old) column low high j }
{
    if j % 2 == 0 {
        fill_unit(column, 1, coefficients);
        return high;
    }
    fill_unit(column, -1, coefficients);
    -low
}

// Writes sign × each value. Limit, sign and length stand in clauses: they concern lists and a number of this one call.
pub(crate) fn fill_scaled(sign: i64, values: &[i64], coefficients: &mut [i64])
    requires same { length values.now ≡ length coefficients.old }
    requires sign { Within 1 sign }
    requires small { AllByRecursion (Within coefficient_limit) values.now }
    ensures { coefficients.new ≡ map (λ z. sign *ℤ z) values.now }
{
    // Written by index: what an adapter of `iter_mut` writes is not known to the proof afterwards.
    for (i, value) in values.iter().enumerate() {
        coefficients[i] = sign * *value;
    }
}
