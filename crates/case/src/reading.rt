// Reading a case text.
ghost use Rattle.std.specs.Prelude.{◌≡◌};
ghost use Rattle.case.specs.Forms.{CaseForm};
ghost use Rattle.case.specs.Stored.{stored, blank, answer_of, stored_after, CaseMeant};
ghost use Rattle.case.specs.Texts.{case_of};

use crate::equations::{NO_BOUNDS, NO_EQUATION, NO_EXTRA};
use crate::faults::CaseFault;
use crate::sizes::Sizes;
use crate::values::Case;

impl<'t> Case<'t> {
    // A place to be filled: one state, one input, divisor 1, and nothing else.
    pub fn blank() -> Case<'t>
        ensures { stored result ≡ blank }
    {
        Case {
            states: 1,
            inputs: 1,
            pushes: 0,
            extras: 0,
            divisor: 1,
            equations: [NO_EQUATION; 4],
            bounds: [NO_BOUNDS; 2],
            extra: [NO_EXTRA; 8],
            proofs: b"",
            line: 0,
        }
    }
}

// Reads a case text up to its proof lines: its values and the proof part of the text fill the place; a refusal leaves the
// place as it was.
pub fn read_case<'t>(text: &'t [u8], place: &mut Case<'t>) -> Result<(), CaseFault>
    ensures value { result ≡ answer_of (case_of text.now) }
    ensures place { stored place.new ≡ stored_after (stored place.old) (case_of text.now) }
    ensures meant { CaseMeant (case_of text.now) place.new }
    ensures form { CaseForm text.now }
{
    let (sizes, rest) = Sizes::read(text)?;
    let (rows, proofs) = sizes.read_body(rest)?;
    *place = Case {
        states: sizes.states,
        inputs: sizes.inputs,
        pushes: sizes.pushes,
        extras: sizes.extras,
        divisor: sizes.divisor,
        equations: rows.equations(sizes),
        bounds: rows.bounds(sizes),
        extra: rows.extra_faces(sizes),
        proofs,
        line: sizes.first_proof(),
    };
    Ok(())
}
