// Reads a law text with a case text directly after it from standard input, and prints the verdict.
#![tactic(auto)]

ghost use Rattle.std.specs.Prelude.{◌≤◌, length, IfOk};

use judge::judge_text;
use report::verdict::{RECORD_SIZE, write_verdict};
use std::io::{Read, Write};
use text::lines::TEXT_LIMIT;

// One byte more than a text may have.
const MOST_READ: usize = TEXT_LIMIT + 1;

// Fills the buffer from standard input as far as there is input, and says how many bytes that gave.
fn fill(rt: &HostRuntime, buffer: &mut [u8]) -> anyhow::Result<usize>
    ensures { IfOk result (λ len. len ≤ length buffer.old) }
{
    let mut input = rt.stdin();
    let mut len = 0;
    // A turn may give less than there is; the bound on the turns makes reading end. A fixed buffer, as nothing is allocated.
    for _ in 0..MOST_READ {
        if len >= buffer.len() {
            break;
        }
        let count = input.read(&mut buffer[len..])?;
        if count == 0 {
            break;
        }
        len += count;
    }
    Ok(len)
}

fn main(rt: HostRuntime) -> anyhow::Result<()> {
    // Fixed memory, as in the library: the text and the record are lent to it.
    let mut buffer = [0u8; MOST_READ];
    let len = fill(&rt, &mut buffer)?;
    let mut line = [0u8; RECORD_SIZE];
    let written = write_verdict(&mut line, judge_text(&buffer[0..len]));
    rt.stdout().write_all(&line[0..written])?;
    Ok(())
}
