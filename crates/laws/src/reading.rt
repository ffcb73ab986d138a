// Reading a law text.
ghost use Rattle.std.specs.Prelude.{◌≡◌};
ghost use Rattle.laws.specs.Controllers.{controller_of, controller_told};
ghost use Rattle.laws.specs.Forms.{LawForm, LawMeant};
ghost use Rattle.laws.specs.Laws.{law_of, row_names};
ghost use Rattle.laws.specs.Tables.{told, answer_of, place_after, values_told, law_stored};

use crate::faults::LawFault;
use crate::head::LawHead;
use crate::law::Law;
use crate::table::{LawKind, LawTable};
use control::Input;
use text::lines::{names_line, sized};

// The names line of a law's inputs. A kind is matched, here and below, and no trait: it is read from a text.
fn row_names(kind: LawKind) -> &'static [u8]
    ensures { result.now ≡ row_names kind }
{
    match kind {
        LawKind::Saturated => b"gains offset divisor low high",
        LawKind::Fixed => b"command",
    }
}

impl LawHead {
    ghost use Rattle.laws.specs.Tables.{table_of, input_of};

    // A saturated input from the numbers of its line.
    fn input(self, row: &[i64; 8]) -> Input
        ensures { result ≡ input_of self.states row.now }
    {
        let states = self.states;
        let mut gains = [0; 4];
        gains[..states].copy_from_slice(&row[..states]);
        Input {
            gains,
            offset: row[states],
            divisor: row[states + 1],
            low: row[states + 2],
            high: row[states + 3],
        }
    }

    // The table of two inputs' numbers.
    fn table(self, rows: &[[i64; 8]; 2]) -> LawTable
        ensures { result ≡ table_of self.kind self.states rows.now }
    {
        match self.kind {
            LawKind::Saturated => {
                LawTable::Saturated([self.input(&rows[0]), self.input(&rows[1])])
            }
            LawKind::Fixed => LawTable::Fixed([rows[0][0], rows[1][0]]),
        }
    }
}

// The values of a law text: its second line, its inputs' numbers and the rest of the text.
fn read_values(text: &[u8]) -> Result<(LawHead, [[i64; 8]; 2], &[u8]), LawFault>
    ensures { values_told result ≡ law_stored (law_of text.now) }
{
    sized(text)?;
    let rest = names_line(text, 1, b"law states inputs")?;
    let (head, rest) = LawHead::read(rest)?;
    let rest = names_line(rest, 3, row_names(head.kind))?;
    let (rows, rest) = head.read_rows(rest)?;
    Ok((head, rows, rest))
}

// Reads a law text: its numbers fill the place, and the answer is its numbers of states and inputs and the rest of the
// text; a refusal leaves the place as it was.
pub fn read_law<'a>(
    text: &'a [u8],
    place: &mut LawTable,
) -> Result<(usize, usize, &'a [u8]), LawFault>
    ensures value { told result ≡ answer_of (law_of text.now) }
    ensures place { place.new ≡ place_after place.old (law_of text.now) }
    ensures form { LawForm text.now }
    ensures meant { LawMeant text.now }
{
    let (head, rows, rest) = read_values(text)?;
    *place = head.table(&rows);
    Ok((head.states, head.inputs, rest))
}

// Reads a law text into the controller that it describes, and gives the rest of the text too.
pub fn read_controller(text: &[u8]) -> Result<(Law, &[u8]), LawFault>
    ensures { controller_told result ≡ controller_of text.now }
{
    let mut table = LawTable::Fixed([0, 0]);
    let (states, inputs, rest) = read_law(text, &mut table)?;
    let law = Law::new(states, inputs, &table).unwrap();
    Ok((law, rest))
}
