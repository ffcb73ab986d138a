// The greatest common divisor.
ghost use Rattle.std.specs.Prelude.{◌≡◌};
ghost use Rattle.elimination.specs.Divisors.{gcd, Greatest, divisor};

// The greatest common divisor, by Euclid's algorithm; of 0 and 0 it is 0.
pub fn common_divisor(a: u64, b: u64) -> u64
    ensures value { result ≡ gcd a b }
    ensures greatest { Greatest a b result }
{
    // A loop that counts no index, and no recursion: it asks for no stack (docs/HOST.md).
    let (mut x, mut y) = (a, b);
    while y != 0 {
        (x, y) = (y, x % y);
    }
    x
}

// The greatest common divisor of g and all magnitudes.
pub(crate) fn divisor_of(g: u64, values: &[i64]) -> u64
    ensures value { result ≡ divisor g values.now }
{
    values
        .iter()
        .fold(g, |d, value| common_divisor(d, value.unsigned_abs()))
}
