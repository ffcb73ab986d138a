// What a run tells, and the record in which it is told.
ghost use Rattle.std.specs.Prelude.{◌≡◌, ◌+◌, ◌<◌, ◌≤◌, length};
ghost use Rattle.std.specs.List.{flat_map};
ghost use Rattle.report.specs.Verdicts.{layer_word, verdict_word, verdict_layer, verdict_numbers, spaced, line_of, verdict_text, record_size};
ghost use Rattle.report.specs.Written.{written};

use crate::print::{write_bytes, write_number};

// How many bytes a record has.
pub const RECORD_SIZE: usize = 160;

// The line of names before the line of a verdict.
const HEADER: &[u8] = b"verdict layer line field region face cause\n";

// What refuses: the law, the case, the proof, the solver or the loop.
#[derive(Clone, Copy, PartialEq, Eq, Debug)]
pub enum Layer {
    Law,
    Case,
    Proof,
    Solve,
    Loop,
}

// What a refusal tells: the layer, the place and the cause; a number that is not told is 0, as it is printed. The cause is a
// number: a report may hold any, and the type of the named causes would ask more of callers.
#[derive(Clone, Copy, PartialEq, Eq, Debug)]
pub struct Report {
    pub layer: Layer,
    pub line: u32,
    pub field: u32,
    pub region: u32,
    pub face: u32,
    pub cause: u32,
}

// How a run ended: all was read, or all was read and checked, with so many regions and faces; or it was refused.
#[derive(Clone, Copy)]
pub enum Verdict {
    Read { regions: u32, faces: u32 },
    Accepted { regions: u32, faces: u32 },
    Refused(Report),
}

impl Layer {
    // The word for a layer, as bytes: a record takes bytes and no formatter.
    fn word(self) -> &'static [u8]
        ensures { result.now ≡ layer_word self }
    {
        match self {
            Layer::Law => b"law",
            Layer::Case => b"case",
            Layer::Proof => b"proof",
            Layer::Solve => b"solve",
            Layer::Loop => b"loop",
        }
    }
}

impl Verdict {
    // The word for a verdict, as bytes like that for a layer.
    fn word(self) -> &'static [u8]
        ensures { result.now ≡ verdict_word self }
    {
        match self {
            Verdict::Read { .. } => b"read",
            Verdict::Accepted { .. } => b"accepted",
            Verdict::Refused(_) => b"refused",
        }
    }

    // The word for the layer of a verdict.
    fn layer_word(self) -> &'static [u8]
        ensures { result.now ≡ verdict_layer self }
    {
        match self {
            Verdict::Read { .. } | Verdict::Accepted { .. } => b"none",
            Verdict::Refused(report) => report.layer.word(),
        }
    }

    // The line, field, region, face and cause of a verdict.
    fn numbers(self) -> [u32; 5]
        ensures { result ≡ verdict_numbers self }
    {
        match self {
            Verdict::Read { regions, faces } | Verdict::Accepted { regions, faces } => {
                [0, 0, regions, faces, 0]
            }
            Verdict::Refused(r) => [r.line, r.field, r.region, r.face, r.cause],
        }
    }
}

// Writes bytes into the front of a slice that has room for them, and says how many.
fn print_bytes(out: &mut [u8], bytes: &[u8]) -> usize
    requires { length bytes.now ≤ length out.old }
    ensures count { result ≡ length bytes.now }
    ensures bytes { out.new ≡ written bytes.now out.old }
{
    write_bytes(out, bytes).unwrap()
}

// Writes numbers, each after a space, into the front of a slice that has room for them, and says how many bytes that
// took.
fn print_numbers(out: &mut [u8], numbers: &[u32]) -> usize
    requires { length (flat_map spaced numbers.now) ≤ length out.old }
    ensures count { result ≡ length (flat_map spaced numbers.now) }
    ensures bytes { out.new ≡ written (flat_map spaced numbers.now) out.old }
{
    // `at` counts bytes and not numbers: each number is written into what remains of the record.
    let mut at = 0;
    for number in numbers {
        out[at] = b' ';
        at += 1;
        at += write_number(&mut out[at..], i64::from(*number)).unwrap();
    }
    at
}

// Writes a line of two words and numbers into the front of a slice that has room for it, and says how many bytes that
// took.
fn print_line(out: &mut [u8], word: &[u8], layer: &[u8], numbers: &[u32]) -> usize
    requires { length word.now + 1 + length layer.now + length (flat_map spaced numbers.now) < length out.old }
    ensures count { result ≡ length (line_of word.now layer.now numbers.now) }
    ensures fits { result ≤ length out.old }
    ensures bytes { out.new ≡ written (line_of word.now layer.now numbers.now) out.old }
{
    // `at` counts bytes of the record.
    let mut at = print_bytes(out, word);
    out[at] = b' ';
    at += 1;
    at += print_bytes(&mut out[at..], layer);
    at += print_numbers(&mut out[at..], numbers);
    out[at] = b'\n';
    at + 1
}

// Writes a verdict into the front of a record, and says how many bytes that took.
pub fn write_verdict(out: &mut [u8; RECORD_SIZE], verdict: Verdict) -> usize
    ensures count { result ≡ length (verdict_text verdict) }
    ensures fits { result ≤ record_size }
    ensures bytes { out.new ≡ written (verdict_text verdict) out.old }
{
    let word = verdict.word();
    let layer = verdict.layer_word();
    let numbers = verdict.numbers();
    let at = print_bytes(out, HEADER);
    at + print_line(&mut out[at..], word, layer, &numbers)
}
