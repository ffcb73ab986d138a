// The lines of a text.
ghost use Rattle.std.specs.Prelude.{◌≡◌, take};
ghost use Rattle.text.specs.Forms.{NamesForm, RowForm};
ghost use Rattle.text.specs.Lines.{size_of, names_line, numbers_line, padded_line, row_width, held, with_rest};

use crate::faults::TextFault;
use crate::fields::{Fields, cut};
use crate::number::Limit;

// The most bytes of a text.
pub const TEXT_LIMIT: usize = 60_000;

// Whether a text, with all that follows it, is neither empty nor too long.
pub fn sized(text: &[u8]) -> Result<(), TextFault>
    ensures { result ≡ size_of text.now }
{
    if text.is_empty() || text.len() > TEXT_LIMIT {
        return Err(TextFault::Size);
    }
    Ok(())
}

// The text after a line of just these names. Text and line are two parameters here and below: a cursor of both would need
// an invariant on its counter, and so ask more of callers.
pub fn names_line<'a>(text: &'a [u8], line: u32, names: &[u8]) -> Result<&'a [u8], TextFault>
    ensures value { held result ≡ names_line line names.now text.now }
    ensures form { NamesForm names.now text.now }
{
    match cut(text, b'\n') {
        Some((bytes, rest)) if bytes == names => Ok(rest),
        _ => Err(TextFault::Line(line)),
    }
}

// A line of numbers, one for each limit up to the eighth, then zeros, and the text after it.
pub fn row_line<'a>(
    text: &'a [u8],
    line: u32,
    limits: &[Limit],
) -> Result<([i64; 8], &'a [u8]), TextFault>
    ensures value { with_rest result ≡ padded_line (numbers_line line (take row_width limits.now) text.now) }
    ensures form { RowForm (take row_width limits.now) text.now }
{
    let (bytes, rest) = cut(text, b'\n').ok_or(TextFault::Line(line))?;
    let row = Fields::of(bytes).row(line, 0, limits)?;
    Ok((row, rest))
}
