// Lists of integers, combined and divided place by place.
ghost use Rattle.std.specs.Prelude.{◌≡◌, pos, ◌+ℤ◌, ◌*ℤ◌, ◌<ℤ◌, int_le, int_lt};
ghost use Rattle.std.specs.List.{AllByRecursion, list_all, list_any};
ghost use Rattle.arith.specs.Bounds.{Within};
ghost use Rattle.elimination.specs.Rows.{number_limit, mixed, quotients};

// x × a + y × b. The limits stand in clauses, here and below: a type for a number within them would wrap every number of a row.
pub(crate) fn weigh(x: i64, a: i64, y: i64, b: i64) -> i64
    requires first { (Within number_limit x) × (Within number_limit a) }
    requires second { (Within number_limit y) × (Within number_limit b) }
    ensures value { result ≡ x *ℤ a +ℤ y *ℤ b }
{
    x * a + y * b
}

// x × p + y × q, place by place.
pub(crate) fn weigh_all<const N: usize>(x: i64, p: &[i64; N], y: i64, q: &[i64; N]) -> [i64; N]
    requires factors { (Within number_limit x) × (Within number_limit y) }
    requires values { (AllByRecursion (Within number_limit) p.now) × (AllByRecursion (Within number_limit) q.now) }
    ensures value { result ≡ mixed x y p.now q.now }
{
    // An index loop: with `from_fn` the limits of the values at k did not reach the closure.
    let mut sum = [0; N];
    for k in 0..N {
        sum[k] = weigh(x, p[k], y, q[k]);
    }
    sum
}

// Each value divided by d, rounded toward 0.
pub(crate) fn divide_all<const N: usize>(values: [i64; N], d: i64) -> [i64; N]
    requires above { pos 0 <ℤ d }
    ensures value { result ≡ quotients d values.entry }
{
    let mut quotients = values;
    for value in quotients.iter_mut() {
        *value /= d;
    }
    quotients
}

// Whether no value is below 0.
pub(crate) fn all_low(values: &[i64]) -> bool
    ensures { result ≡ list_all (λ z. int_le (pos 0) z) values.now }
{
    values.iter().all(|value| *value >= 0)
}

// Whether some value is above 0.
pub(crate) fn any_above(values: &[i64]) -> bool
    ensures { result ≡ list_any (λ z. int_lt (pos 0) z) values.now }
{
    values.iter().any(|value| *value > 0)
}
