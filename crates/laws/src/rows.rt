// The lines of a law text's inputs.
ghost use Rattle.std.specs.Prelude.{◌≡◌};

use crate::faults::LawFault;
use crate::head::LawHead;
use crate::table::LawKind;
use control::limits::{GAIN_LIMIT, MOST_DIVISOR, OFFSET_LIMIT, SETTING_LIMIT};
use text::blocks::row_lines;
use text::faults::Place;
use text::number::Limit;

// Limits are written out, here and in other files: a constant calls no function.
const GAIN: Limit = Limit {
    low: -(GAIN_LIMIT as i64),
    high: GAIN_LIMIT as i64,
};

const OFFSET: Limit = Limit {
    low: -(OFFSET_LIMIT as i64),
    high: OFFSET_LIMIT as i64,
};

const DIVISOR: Limit = Limit {
    low: 1,
    high: MOST_DIVISOR,
};

const SETTING: Limit = Limit {
    low: -(SETTING_LIMIT as i64),
    high: SETTING_LIMIT as i64,
};

// A saturated input at four states; at n states its first 4 - n places are left out.
const INPUT: [Limit; 8] = [GAIN, GAIN, GAIN, GAIN, OFFSET, DIVISOR, SETTING, SETTING];

impl LawHead {
    ghost use Rattle.text.specs.Blocks.{rows_held};
    ghost use Rattle.text.specs.Lines.{with_rest};
    ghost use Rattle.laws.specs.Laws.{ordered, rows_of};
    ghost use Rattle.laws.specs.Limits.{row_limits};

    // The limits of the numbers of an input's line. A kind is matched, here and below, and no trait: it is read from a text.
    fn row_limits(self) -> &'static [Limit]
        ensures { result.now ≡ row_limits self.kind self.states }
    {
        match self.kind {
            LawKind::Saturated => &INPUT[4 - self.states..],
            LawKind::Fixed => &[SETTING],
        }
    }

    // Whether low is not above high, which are the last two numbers of a saturated input's line.
    fn ordered(self, line: u32, row: &[i64; 8]) -> Result<(), LawFault>
        ensures { result ≡ ordered self.kind self.states line row.now }
    {
        match self.kind {
            LawKind::Saturated if row[self.states + 2] > row[self.states + 3] => {
                Err(LawFault::Order(Place {
                    line,
                    field: self.states as u32 + 4,
                }))
            }
            _ => Ok(()),
        }
    }

    // The numbers of all inputs' lines, from the fourth line on, and the text after them.
    pub(crate) fn read_rows<'a>(self, text: &'a [u8]) -> Result<([[i64; 8]; 2], &'a [u8]), LawFault>
        ensures { with_rest result ≡ rows_held 2 (rows_of self.kind self.states self.inputs 4 text.now) }
    {
        row_lines(
            text,
            4,
            self.row_limits(),
            self.inputs,
            |line, row| self.ordered(line, row),
        )
    }
}
