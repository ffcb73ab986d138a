// Judges the law and case texts of standard input up to their proof lines. The form of a case is told in many_texts.
#![tactic(auto)]

use judge::judge_text;

fn main(rt: HostRuntime) -> anyhow::Result<()> {
    many_texts::judge_cases(&rt, |text| judge_text(text))
}
