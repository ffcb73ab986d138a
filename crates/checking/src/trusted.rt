// Cases that check has accepted.
ghost use Rattle.std.specs.Prelude.{◌≡◌, IfOk, OnOk};
ghost use Rattle.control.specs.Means.{meaning_of};
ghost use Rattle.case.specs.Values.{values_of};
ghost use Rattle.certificate.specs.Certificates.{Invariant};
ghost use Rattle.checking.specs.Checking.{is_measured, check_of};
ghost use Rattle.checking.specs.Forms.{CheckForm};
ghost use Rattle.checking.specs.Trusted.{trusted_answer};

use crate::faults::CheckFault;
use crate::lines::check_lines;
use case::values::Case;
use control::Controller;
use system::ClosedLoop;
use text::faults::TextFault;
use text::lines::TEXT_LIMIT;

// The first proof line of a case text stands at this line at the latest, as in specs.
const MOST_FIRST_LINE: u32 = 26;

// A case that check has accepted; there is no other way to one. It stands on the case that was read.
#[derive(Drop)]
pub struct Trusted<'c, 't> {
    case: &'c Case<'t>,
}

impl<'c, 't> Trusted<'c, 't> {
    // The case.
    pub fn case(&self) -> &'c Case<'t>
        ensures { result.now ≡ self.now.case.now }
    {
        self.case
    }
}

// Whether the proof part begins where the head of a case text can end, and is no longer than a text.
fn is_measured(case: &Case) -> bool
    ensures { result ≡ is_measured case.now.line case.now.proofs.now }
{
    case.line <= MOST_FIRST_LINE && case.proofs.len() <= TEXT_LIMIT
}

// Judges the proof part of a case with a controller of its sizes.
fn judge<C: Controller>(case: &Case, controller: &C) -> Result<(), CheckFault>
    ensures { let k = case.now in result ≡ check_of (values_of k) (meaning_of C.Controller controller.now) k.line k.proofs.now }
{
    let closed = ClosedLoop::new(case, controller).map_err(|_| CheckFault::Sizes)?;
    if !is_measured(case) {
        return Err(CheckFault::Text(TextFault::Size));
    }
    check_lines(&closed)
}

// Checks the proof lines of a case with a controller. A case is accepted exactly when its proof part is the text of a
// certificate; then the set within its faces is invariant under the loop with this controller. A refusal tells the first
// place that fails. Case and controller stand apart: the call is defined, and refuses, for any two.
#[tactic(auto, using(crate::proofs::Exact::check_form))]
pub fn check<'c, 't, C: Controller>(
    case: &'c Case<'t>,
    controller: &C,
) -> Result<Trusted<'c, 't>, CheckFault>
    ensures value { let k = case.now in trusted_answer result ≡ check_of (values_of k) (meaning_of C.Controller controller.now) k.line k.proofs.now }
    ensures kept { IfOk result (λ t. t.case.now ≡ case.now) }
    ensures form { let k = case.now in CheckForm (values_of k) (meaning_of C.Controller controller.now) k.line k.proofs.now }
    ensures sound { OnOk result (Invariant (values_of case.now) (meaning_of C.Controller controller.now)) }
{
    judge(case, controller)?;
    Ok(Trusted { case })
}
