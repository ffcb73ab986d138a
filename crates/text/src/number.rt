// The number that a field writes.
ghost use Rattle.std.specs.Prelude.{◌≡◌, ◌≤ℤ◌, IfOk};
ghost use Rattle.std.specs.Option.{option_map};
ghost use Rattle.text.specs.Numbers.{magnitude_of, capped, clipped, number_of, field_of};
ghost use Rattle.text.specs.Forms.{NumberForm};

use crate::bytes::{ByteClass, class_of};
use crate::faults::FieldFault;

// From where to where a number may lie, both ends included.
#[derive(Clone, Copy)]
pub struct Limit {
    pub low: i64,
    pub high: i64,
}

// The number that digits write, as far as 64 bits hold it. Not by `parse`: that takes a plus sign and leading zeros, and has
// no number for digits that 64 bits do not hold.
fn magnitude(digits: &[u8]) -> Option<u64>
    ensures { result ≡ option_map capped (magnitude_of digits.now) }
{
    if digits.is_empty() || (digits.len() > 1 && digits[0] == b'0') {
        return None;
    }
    let mut value: u64 = 0;
    for b in digits {
        match class_of(*b) {
            ByteClass::Digit(d) => value = value.saturating_mul(10).saturating_add(u64::from(d)),
            _ => return None,
        }
    }
    Some(value)
}

// The number that a field writes, as far as 65 bits hold it.
fn wide_number(field: &[u8]) -> Option<i128>
    ensures { result ≡ option_map clipped (number_of field.now) }
{
    match field {
        [b'-', digits @ ..] => match magnitude(digits)? {
            0 => None,
            m => Some(-i128::from(m)),
        },
        _ => Some(i128::from(magnitude(field)?)),
    }
}

// The number of a field, which lies within its limit; a field of any length is told apart from a malformed one.
pub fn field_number(field: &[u8], limit: Limit) -> Result<i64, FieldFault>
    ensures value { result ≡ field_of limit field.now }
    ensures inside { IfOk result (λ z. (limit.low ≤ℤ z) × (z ≤ℤ limit.high)) }
    ensures form { NumberForm field.now }
{
    let number = wide_number(field).ok_or(FieldFault::Malformed)?;
    if number < i128::from(limit.low) || i128::from(limit.high) < number {
        return Err(FieldFault::Outside);
    }
    Ok(number as i64)
}
