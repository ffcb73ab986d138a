// The sections of a case text behind its sizes.
ghost use Rattle.std.specs.Prelude.{◌≡◌, ◌≤◌};
ghost use Rattle.case.specs.Fields.{dynamics_limits, extra_limits};

use crate::faults::CaseFault;
use crate::limits::{DYNAMICS, EXTRA, PUSH, STATE};
use crate::sections::{Section, good_state, in_order};
use crate::sizes::Sizes;
use text::lines::names_line;
use text::number::Limit;

// The numbers of the lines of each section, with zeros in the places that it lacks; fixed places, as nothing is allocated.
#[derive(Clone, Copy)]
pub struct CaseRows {
    pub states: [[i64; 8]; 8],
    pub pushes: [[i64; 8]; 8],
    pub dynamics: [[i64; 8]; 8],
    pub extras: [[i64; 8]; 8],
}

impl Sizes {
    ghost use Rattle.std.specs.Prelude.{◌+◌};
    ghost use Rattle.text.specs.Lines.{with_rest};
    ghost use Rattle.case.specs.Stored.{rows_stored, body_stored, sizes_seen};
    ghost use Rattle.case.specs.Texts.{state_section, push_section, dynamics_section, extra_section, proofs_line, body_of};

    // The limits of a line of dynamics.
    fn dynamics_limits(self) -> &'static [Limit]
        ensures { result.now ≡ dynamics_limits (self.states + self.inputs + self.pushes) }
    {
        &DYNAMICS[0..self.states + self.inputs + self.pushes]
    }

    // The limits of the line of an extra face.
    fn extra_limits(self) -> &'static [Limit]
        ensures { result.now ≡ extra_limits self.states }
    {
        &EXTRA[4 - self.states..]
    }

    // A method for each section: its line, names, limits, count and judge are all there is to it.

    // Reads the states' lines.
    fn read_states(self, text: &[u8]) -> Result<([[i64; 8]; 8], &[u8]), CaseFault>
        ensures { with_rest result ≡ rows_stored (state_section (sizes_seen self) text.now) }
    {
        let section = Section {
            line: 3,
            names: b"low high leeway constant",
            limits: &STATE,
            count: self.states,
        };
        section.read(text, |line, row| good_state(self.divisor, line, row))
    }

    // Reads the pushes' lines.
    fn read_pushes(self, text: &[u8]) -> Result<([[i64; 8]; 8], &[u8]), CaseFault>
        ensures { with_rest result ≡ rows_stored (push_section (sizes_seen self) text.now) }
    {
        let section = Section {
            line: 4 + self.states as u32,
            names: b"push-low push-high",
            limits: &PUSH,
            count: self.pushes,
        };
        section.read(text, in_order)
    }

    // Reads the lines of dynamics.
    fn read_dynamics(self, text: &[u8]) -> Result<([[i64; 8]; 8], &[u8]), CaseFault>
        ensures { with_rest result ≡ rows_stored (dynamics_section (sizes_seen self) text.now) }
    {
        let section = Section {
            line: 5 + self.states as u32 + self.pushes as u32,
            names: b"A B E",
            limits: self.dynamics_limits(),
            count: self.states,
        };
        section.read(text, |_, _| Ok(()))
    }

    // Reads the lines of the extra faces.
    fn read_extras(self, text: &[u8]) -> Result<([[i64; 8]; 8], &[u8]), CaseFault>
        ensures { with_rest result ≡ rows_stored (extra_section (sizes_seen self) text.now) }
    {
        let section = Section {
            line: 6 + 2 * self.states as u32 + self.pushes as u32,
            names: b"F f",
            limits: self.extra_limits(),
            count: self.extras,
        };
        section.read(text, |_, _| Ok(()))
    }

    // The line of the proofs' names.
    fn proofs_line(self) -> u32
        ensures { result ≡ proofs_line (sizes_seen self) }
    {
        7 + 2 * self.states as u32 + self.pushes as u32 + self.extras as u32
    }

    // The number of the first proof line.
    pub(crate) fn first_proof(self) -> u32
        ensures { result ≡ proofs_line (sizes_seen self) + 1 }
    {
        self.proofs_line() + 1
    }

    // Reads the sections behind the sizes, and gives their rows and the proof part of the text.
    pub(crate) fn read_body(self, text: &[u8]) -> Result<(CaseRows, &[u8]), CaseFault>
        ensures { with_rest result ≡ body_stored (body_of (sizes_seen self) text.now) }
    {
        let (states, rest) = self.read_states(text)?;
        let (pushes, rest) = self.read_pushes(rest)?;
        let (dynamics, rest) = self.read_dynamics(rest)?;
        let (extras, rest) = self.read_extras(rest)?;
        let proofs = names_line(rest, self.proofs_line(), b"region face scale multipliers")?;
        Ok((
            CaseRows {
                states,
                pushes,
                dynamics,
                extras,
            },
            proofs,
        ))
    }
}
