// The first section of a case text: its sizes.
ghost use Rattle.std.specs.Prelude.{◌≡◌, ◌≤◌, pos, ◌≤ℤ◌};
ghost use Rattle.control.specs.Limits.{most_states, most_inputs};
ghost use Rattle.case.specs.Limits.{most_pushes, most_extras, divisor_limit};

use crate::faults::CaseFault;
use crate::limits::SIZES;
use crate::sections::Section;
use text::lines::sized;

// The numbers of states, inputs, pushes and extra faces, and the divisor, while the rest of a text is read by them. A case has
// them as fields of its own, by which all who use it say them.
#[derive(Clone, Copy)]
pub struct Sizes {
    pub states: usize,
    pub inputs: usize,
    pub pushes: usize,
    pub extras: usize,
    pub divisor: i64,
    ghost sizes: { (1 ≤ states) × (states ≤ most_states) × (1 ≤ inputs) × (inputs ≤ most_inputs) },
    ghost counts: { (pushes ≤ most_pushes) × (extras ≤ most_extras) },
    ghost divides: { (pos 1 ≤ℤ divisor) × (divisor ≤ℤ pos divisor_limit) },
}

impl Sizes {
    ghost use Rattle.case.specs.Stored.{sizes_told};
    ghost use Rattle.case.specs.Texts.{sizes_section};

    // Reads the first section of a case text, and gives the sizes and the text after it.
    pub(crate) fn read(text: &[u8]) -> Result<(Sizes, &[u8]), CaseFault>
        ensures { sizes_told result ≡ sizes_section text.now }
    {
        sized(text)?;
        let section = Section {
            line: 1,
            names: b"states inputs disturbances extra divisor",
            limits: &SIZES,
            count: 1,
        };
        let (rows, rest) = section.read(text, |_, _| Ok(()))?;
        let row = rows[0];
        Ok((
            Sizes {
                states: row[0].unsigned_abs() as usize,
                inputs: row[1].unsigned_abs() as usize,
                pushes: row[2].unsigned_abs() as usize,
                extras: row[3].unsigned_abs() as usize,
                divisor: row[4],
            },
            rest,
        ))
    }
}
