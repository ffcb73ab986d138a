// The second line of a law text: the law word and both sizes.
ghost use Rattle.std.specs.Prelude.{◌≡◌, ◌≤◌};
ghost use Rattle.control.specs.Limits.{most_states, most_inputs};
ghost use Rattle.text.specs.Left.{left_of};
ghost use Rattle.text.specs.Lines.{next_field, after_field};
ghost use Rattle.laws.specs.Laws.{kind_of, kind_at};

use crate::faults::LawFault;
use crate::table::LawKind;
use control::limits::{MOST_INPUTS, MOST_STATES};
use text::faults::TextFault;
use text::fields::{Fields, cut};
use text::number::Limit;

// What the second line says.
#[derive(Clone, Copy)]
pub struct LawHead {
    pub kind: LawKind,
    pub states: usize,
    pub inputs: usize,
    ghost sizes: { (1 ≤ states) × (states ≤ most_states) × (1 ≤ inputs) × (inputs ≤ most_inputs) },
}

// As in a case text: no crate below both has the sizes and `Limit` too.
const STATES: Limit = Limit {
    low: 1,
    high: MOST_STATES as i64,
};

const INPUTS: Limit = Limit {
    low: 1,
    high: MOST_INPUTS as i64,
};

// The kind of law that a word names. No TryFrom: a word that names none has no error of its own, and the caller knows the line.
fn law_kind(word: &[u8]) -> Option<LawKind>
    ensures { result ≡ kind_of word.now }
{
    if word == b"saturated".as_slice() {
        Some(LawKind::Saturated)
    } else if word == b"fixed".as_slice() {
        Some(LawKind::Fixed)
    } else {
        None
    }
}

// The kind of law that the next field of a line names.
fn next_kind(fields: &mut Fields) -> Option<LawKind>
    ensures value { result ≡ kind_at (next_field (left_of fields.old)) }
    ensures left { left_of fields.new ≡ after_field (left_of fields.old) }
{
    let word = fields.word()?;
    law_kind(word)
}

impl LawHead {
    ghost use Rattle.laws.specs.Laws.{head_line};
    ghost use Rattle.laws.specs.Tables.{head_told};

    // Reads the second line of a law text, and gives what it says and the text after it.
    pub(crate) fn read(text: &[u8]) -> Result<(LawHead, &[u8]), LawFault>
        ensures { head_told result ≡ head_line text.now }
    {
        let (bytes, rest) = cut(text, b'\n').ok_or(TextFault::Line(2))?;
        let mut fields = Fields::of(bytes);
        let kind = next_kind(&mut fields).ok_or(LawFault::Word(2))?;
        let sizes = fields.row(2, 1, &[STATES, INPUTS])?;
        Ok((
            LawHead {
                kind,
                states: sizes[0].unsigned_abs() as usize,
                inputs: sizes[1].unsigned_abs() as usize,
            },
            rest,
        ))
    }
}
