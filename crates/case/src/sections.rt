// The sections of a case text: a names line and then lines of values.
ghost use Rattle.std.specs.Prelude.{◌≡◌, ◌<◌, ◌≤◌, length};
ghost use Rattle.text.specs.Lines.{row_width};
ghost use Rattle.case.specs.Limits.{most_extras};
ghost use Rattle.case.specs.Texts.{in_order, state_judged, wide_enough};

use crate::faults::CaseFault;
use text::blocks::row_lines;
use text::faults::Place;
use text::lines::names_line;
use text::number::Limit;

// Whether low, the first number of a row, is not above high, the second.
pub(crate) fn in_order(line: u32, row: &[i64; 8]) -> Result<(), CaseFault>
    ensures { result ≡ in_order line row.now }
{
    if row[0] > row[1] {
        return Err(CaseFault::Order(Place { line, field: 2 }));
    }
    Ok(())
}

// Whether 2 × leeway + 1 reaches the divisor; the leeway is the third number of a row.
fn wide_enough(divisor: i64, line: u32, row: &[i64; 8]) -> Result<(), CaseFault>
    ensures { result ≡ wide_enough divisor line row.now }
{
    if 2 * i128::from(row[2]) + 1 < i128::from(divisor) {
        return Err(CaseFault::Narrow(Place { line, field: 3 }));
    }
    Ok(())
}

// Whether the row of a state is good: low not above high, and a leeway that suffices for the divisor.
pub(crate) fn good_state(divisor: i64, line: u32, row: &[i64; 8]) -> Result<(), CaseFault>
    ensures { result ≡ state_judged divisor line row.now }
{
    in_order(line, row)?;
    wide_enough(divisor, line, row)
}

// A section: the line of its names, the names, the limits of the numbers of a line, and how many lines it has.
#[derive(Clone, Copy)]
pub struct Section<'a> {
    pub line: u32,
    pub names: &'a [u8],
    pub limits: &'a [Limit],
    pub count: usize,
    ghost early: { line < 100 },
    ghost narrow: { length limits.now ≤ row_width },
    ghost few: { count ≤ most_extras },
}

impl Section<'_> {
    ghost use Rattle.std.specs.Prelude.{ℕ, List, ℤ};
    ghost use Rattle.text.specs.Blocks.{Judgement, Judges};
    ghost use Rattle.text.specs.Lines.{with_rest};
    ghost use Rattle.case.specs.Stored.{rows_stored};
    ghost use Rattle.case.specs.Texts.{section_of};
    ghost use Rattle.case.specs.declared.faults.CaseFault.{CaseFault as Fault};

    // The numbers of the lines, each of which a judge accepts, and the text after them.
    pub(crate) fn read<'t, J: Fn(u32, &[i64; 8]) -> Result<(), CaseFault>>(
        self,
        text: &'t [u8],
        judge: J,
    ) -> Result<([[i64; 8]; 8], &'t [u8]), CaseFault>
        requires { J.IsAlwaysCallable judge }
        ensures { (judged : Judgement Fault) → Judges (J.post judge) judged → with_rest result ≡ rows_stored (section_of self.entry.names.now self.entry.limits.now judged self.entry.count self.entry.line text.now) }
    {
        let rest = names_line(text, self.line, self.names)?;
        row_lines(rest, self.line + 1, self.limits, self.count, judge)
    }
}
