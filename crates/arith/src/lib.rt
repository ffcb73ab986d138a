// Bounds of integers and products of lists of integers.
#![tactic(auto)]

ghost use Rattle.std.specs.Prelude.{◌≡◌, ◌≤◌, length, ◌*ℤ◌};
ghost use Rattle.std.specs.List.{AllByRecursion};
ghost use Rattle.arith.specs.Bounds.{Within, within, all_within};
ghost use Rattle.arith.specs.Products.{dot, factor_limit, most_terms};

// Whether the magnitude of the value is at most the limit.
pub fn is_within(value: i64, limit: u64) -> bool
    ensures { result ≡ within limit value }
{
    value.unsigned_abs() <= limit
}

// Whether the magnitude of every value is at most the limit.
pub fn all_within(values: &[i64], limit: u64) -> bool
    ensures { result ≡ all_within limit values.now }
{
    values.iter().all(|value| is_within(*value, limit))
}

// The product of two values, exact for all of them.
fn product(a: i64, b: i64) -> i128
    ensures { result ≡ a *ℤ b }
{
    i128::from(a) * i128::from(b)
}

// The sum of the products of the factors and the values at the same place; the values may be any.
pub fn wide_product(factors: &[i64], values: &[i64]) -> i128
    requires same { length factors.now ≡ length values.now }
    requires few { length factors.now ≤ most_terms }
    requires small { AllByRecursion (Within factor_limit) factors.now }
    ensures { result ≡ dot factors.now values.now }
{
    let mut sum = 0;
    // Not by `zip`: its items come to the proof without the range of their type.
    for (i, factor) in factors.iter().enumerate() {
        sum += product(*factor, values[i]);
    }
    sum
}

// The sum of the products of the values at the same place.
pub fn dot_product(a: &[i64], b: &[i64]) -> i64
    requires same { length a.now ≡ length b.now }
    requires few { length a.now ≤ most_terms }
    requires first { AllByRecursion (Within factor_limit) a.now }
    requires second { AllByRecursion (Within factor_limit) b.now }
    ensures { result ≡ dot a.now b.now }
{
    wide_product(a, b) as i64
}
