// A printer of bytes and whole numbers into the front of a slice. No Display: a record is lent memory, and each number goes
// into what remains of it.
ghost use Rattle.std.specs.Prelude.{◌≡◌, ◌≤◌, length};
ghost use Rattle.text.specs.Render.{render-ℕ, render};
ghost use Rattle.report.specs.Written.{written, written_if, room};

// How many digits a number has.
fn count_digits(n: u64) -> usize
    ensures { result ≡ length (render-ℕ n) }
{
    if n < 10 { 1 } else { count_digits(n / 10) + 1 }
}

// Writes a number's digits into the front of a slice that has room for them, and says how many.
fn write_digits(out: &mut [u8], n: u64) -> usize
    requires { length (render-ℕ n) ≤ length out.old }
    ensures count { result ≡ length (render-ℕ n) }
    ensures bytes { out.new ≡ written (render-ℕ n) out.old }
{
    if n < 10 {
        out[0] = b'0' + n as u8;
        return 1;
    }
    let at = write_digits(out, n / 10);
    out[at] = b'0' + (n % 10) as u8;
    at + 1
}

// Writes a number into the front of a slice, and says how many bytes that took; without room it writes nothing.
pub fn write_number(out: &mut [u8], number: i64) -> Option<usize>
    ensures count { result ≡ room (render number) out.old }
    ensures bytes { out.new ≡ written_if (render number) out.old }
{
    let magnitude = number.unsigned_abs();
    let digits = count_digits(magnitude);
    if number < 0 {
        if digits >= out.len() {
            return None;
        }
        out[0] = b'-';
        return Some(1 + write_digits(&mut out[1..], magnitude));
    }
    if digits > out.len() {
        return None;
    }
    Some(write_digits(out, magnitude))
}

// Writes bytes into the front of a slice, and says how many; without room it writes nothing.
pub fn write_bytes(out: &mut [u8], bytes: &[u8]) -> Option<usize>
    ensures count { result ≡ room bytes.now out.old }
    ensures bytes { out.new ≡ written_if bytes.now out.old }
{
    let count = bytes.len();
    if count > out.len() {
        return None;
    }
    out[0..count].copy_from_slice(bytes);
    Some(count)
}
