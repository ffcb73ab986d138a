// The call for a host in C.
#![tactic(auto)]

ghost use Rattle.std.specs.Prelude.{◌≡◌};
ghost use Rattle.text.specs.Forms.{Iff};
ghost use Rattle.judgement.specs.Forms.{Acceptable, InvariantText};
ghost use Rattle.judgement.specs.Judging.{judged};
ghost use Rattle.host.specs.Causes.{verdict_cause};

use judgement::judge_text;
use report::verdict::Report;

// The cause of the verdict on a law text with a case text directly after it; accepted is 0.
#[unsafe(no_mangle)]
pub extern "C" fn vangprune_verdict(text: &[u8]) -> u32
    ensures value { result ≡ verdict_cause (judged text.now) }
    ensures form { Iff (result ≡ 0) (Acceptable text.now) }
    ensures sound { result ≡ 0 → InvariantText text.now }
{
    match judge_text(text) {
        // The interface of C has numbers alone.
        Ok(_) => 0,
        Err(fault) => Report::from(fault).cause,
    }
}
