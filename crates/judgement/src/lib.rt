// From the bytes of a law text with a case text directly after it to a verdict.
#![tactic(auto)]

ghost use Rattle.std.specs.Prelude.{◌≡◌};
ghost use Rattle.laws.specs.Controllers.{controlled};
ghost use Rattle.judgement.specs.Forms.{AcceptedForm, AcceptedSound};
ghost use Rattle.judgement.specs.Judging.{case_judged, judged, verdict_by};

use case::reading::read_case;
use case::values::Case;
use checking::check;
use checking::faults::CheckFault;
use control::Controller;
use laws::law::Law;
use laws::reading::read_controller;
use report::verdict::Verdict;

// How many regions and faces an accepted text has.
#[derive(Clone, Copy, PartialEq, Eq, Debug)]
pub struct Accepted {
    pub regions: u32,
    pub faces: u32,
}

// Reads a case text and checks it with a law, and gives both counts, or the first fault.
fn judge_case(law: &Law, text: &[u8]) -> Result<Accepted, CheckFault>
    ensures { result ≡ case_judged (controlled law.now) text.now }
{
    let mut case = Case::blank();
    read_case(text, &mut case)?;
    check(&case, law)?;
    Ok(Accepted {
        regions: law.regions() as u32,
        faces: case.face_count() as u32,
    })
}

// Reads a law text and the case text after it and checks the case with the law, and gives the counts of regions and of
// faces, or the first fault.
pub fn judge_text(text: &[u8]) -> Result<Accepted, CheckFault>
    ensures value { result ≡ judged text.now }
    ensures form { AcceptedForm text.now }
    ensures sound { AcceptedSound text.now }
{
    let (law, rest) = read_controller(text)?;
    judge_case(&law, rest)
}

// The verdict on a law text with a case text directly after it.
pub fn verdict_of(text: &[u8]) -> Verdict
    ensures value { result ≡ verdict_by (judged text.now) }
    ensures form { AcceptedForm text.now }
    ensures sound { AcceptedSound text.now }
{
    match judge_text(text) {
        Ok(accepted) => Verdict::Accepted {
            regions: accepted.regions,
            faces: accepted.faces,
        },
        Err(fault) => Verdict::Refused(fault.into()),
    }
}
