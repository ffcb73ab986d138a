// Judges many texts from standard input, and prints the verdict on each on a line of its own.
//
// A line of the input is one case: a decimal size, a space, and a text with escapes. In the text `\n` stands for a line
// feed, `\\` for a backslash, and `\xHH` for the byte with these two hexadecimal digits. A size of 0 takes the text as it
// stands; another size, up to 60,001, fills the text up to that many bytes with the byte `x`. The output has for each
// case the second line of the record of its verdict.
#![tactic(auto)]

ghost use Rattle.std.specs.Prelude.{◌<◌, length, IfSome};

use anyhow::{Context, anyhow};
use report::verdict::{RECORD_SIZE, Verdict, write_verdict};
use std::alloc::Global;
use std::io::{BufRead, BufReader, Write};
use text::fields::cut;
use text::lines::TEXT_LIMIT;

// The most bytes that a text is filled up to: one more than a text may have.
const MOST_FILLED: usize = TEXT_LIMIT + 1;

// The value of a hexadecimal digit; a match, since `to_digit` asks for a char.
fn hex_digit(digit: u8) -> Option<u8>
    ensures { IfSome result (λ value. value < 16) }
{
    match digit {
        b'0'..=b'9' => Some(digit - b'0'),
        b'a'..=b'f' => Some(digit - b'a' + 10),
        b'A'..=b'F' => Some(digit - b'A' + 10),
        _ => None,
    }
}

// The first byte of a text with escapes, and the text after it.
fn first_byte(escaped: &[u8]) -> Option<(u8, &[u8])>
    ensures { IfSome result (λ p. length p.1.now < length escaped.now) }
{
    match escaped {
        [b'\\', b'n', rest @ ..] => Some((b'\n', rest)),
        [b'\\', b'\\', rest @ ..] => Some((b'\\', rest)),
        [b'\\', b'x', high, low, rest @ ..] => {
            let byte = 16 * hex_digit(*high)? + hex_digit(*low)?;
            Some((byte, rest))
        }
        [b'\\', ..] => None,
        [byte, rest @ ..] => Some((*byte, rest)),
        [] => None,
    }
}

// The bytes that a text with escapes stands for.
fn unescaped(heap: Global, escaped: &[u8]) -> anyhow::Result<Vec<u8>> {
    let mut text = Vec::new(heap);
    // A while loop: an escape takes two or four bytes, and a wrong one ends the reading.
    let mut rest = escaped;
    while !rest.is_empty() {
        let (byte, after) = first_byte(rest).context("an unknown escape")?;
        text.push(byte)?;
        rest = after;
    }
    Ok(text)
}

// The text of a case.
fn case_text(heap: Global, case: &str) -> anyhow::Result<Vec<u8>> {
    let (size, escaped) = case.split_once(' ').context("a case without a space")?;
    let size = size.parse::<usize>()?;
    if size > MOST_FILLED {
        return Err(anyhow!("a size above 60,001"));
    }
    let mut text = unescaped(heap, escaped.as_bytes())?;
    if size > text.len() {
        text.resize(size, b'x')?;
    }
    Ok(text)
}

// Prints the second line of the verdict on a text; the record is an array, as the library writes it.
fn print_verdict(rt: &HostRuntime, verdict: Verdict) -> anyhow::Result<()> {
    let mut record = [0u8; RECORD_SIZE];
    let written = write_verdict(&mut record, verdict);
    let (_, line) = cut(&record[0..written], b'\n').context("a verdict of one line")?;
    rt.stdout().write_all(line)?;
    Ok(())
}

// Judges each case of standard input by the rule, and prints its verdict; no clause speaks of what a program prints.
pub fn judge_cases<F: Fn(&[u8]) -> Verdict>(rt: &HostRuntime, judge: F) -> anyhow::Result<()>
    requires { F.IsAlwaysCallable judge }
{
    let heap = rt.alloc();
    for case in BufReader::new(heap, rt.stdin())?.lines(heap) {
        let text = case_text(heap, &case?)?;
        print_verdict(rt, judge(&text))?;
    }
    Ok(())
}
