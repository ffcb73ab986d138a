// From the bytes of a law text with a case text directly after it to a verdict. It stops before the proof lines, and promises
// so; judgement goes on to them.
#![tactic(auto)]

ghost use Rattle.std.specs.Prelude.{◌≡◌};
ghost use Rattle.judge.specs.Judging.{counts_verdict, verdict_of};

use case::reading::read_case;
use case::values::Case;
use control::Controller;
use laws::reading::read_controller;
use report::verdict::{Report, Verdict};

// Reads a law text and the case text after it, and gives the counts of regions and of faces, or what the first fault
// tells.
fn read_counts(text: &[u8]) -> Result<(u32, u32), Report>
    ensures { counts_verdict result ≡ verdict_of text.now }
{
    let (law, rest) = read_controller(text)?;
    let mut case = Case::blank();
    read_case(rest, &mut case)?;
    Ok((law.regions() as u32, case.face_count() as u32))
}

// Reads a law text and the case text after it, and tells the counts of regions and of faces, or the first fault.
pub fn judge_text(text: &[u8]) -> Verdict
    ensures { result ≡ verdict_of text.now }
{
    match read_counts(text) {
        Ok((regions, faces)) => Verdict::Read { regions, faces },
        Err(report) => Verdict::Refused(report),
    }
}
