// Lines of numbers, one after another, each judged as a whole.
ghost use Rattle.std.specs.Prelude.{◌≡◌, ◌+◌, ◌<◌, ◌≤◌, ◌^◌, take};
ghost use Rattle.text.specs.Lines.{with_rest, padded_line, row_width};
ghost use Rattle.text.specs.Blocks.{WhereJudged, line_of, rows_of, rows_held};

use crate::faults::TextFault;
use crate::lines::row_line;
use crate::number::Limit;

// The numbers of one line that a judge accepts, and the text after it. Text and line are two parameters: a cursor of both
// would need an invariant on its counter, and so ask more of callers.
fn judged_line<'a, E: From<TextFault>, J: Fn(u32, &[i64; 8]) -> Result<(), E>>(
    text: &'a [u8],
    line: u32,
    limits: &[Limit],
    judge: &J,
) -> Result<([i64; 8], &'a [u8]), E>
    requires { J.IsAlwaysCallable judge.now }
    ensures { WhereJudged E.From.from_gives (J.post judge.now) (λ told judged. with_rest result ≡ padded_line (line_of told judged (take row_width limits.now) line text.now)) }
{
    let (row, rest) = row_line(text, line, limits)?;
    judge(line, &row)?;
    Ok((row, rest))
}

// The numbers of `count` lines from a line on, each of which a judge accepts, and the text after them; the places of lacking
// lines hold 0. The room is asked for here, as it concerns a const parameter and a count of this one call.
pub fn row_lines<'a, E: From<TextFault>, J: Fn(u32, &[i64; 8]) -> Result<(), E>, const N: usize>(
    text: &'a [u8],
    line: u32,
    limits: &[Limit],
    count: usize,
    judge: J,
) -> Result<([[i64; 8]; N], &'a [u8]), E>
    requires few { count ≤ N }
    requires early { line + count < 2 ^ 32 }
    requires callable { J.IsAlwaysCallable judge }
    ensures { WhereJudged E.From.from_gives (J.post judge) (λ told judged. with_rest result ≡ rows_held N (rows_of told judged (take row_width limits.now) count line text.now)) }
{
    let mut rows = [[0; 8]; N];
    let mut rest = text;
    // An index loop: with `iter_mut` and `enumerate` the proof did not know afterwards what was written.
    for i in 0..count {
        let (row, after) = judged_line(rest, line + i as u32, limits, &judge)?;
        rows[i] = row;
        rest = after;
    }
    Ok((rows, rest))
}
