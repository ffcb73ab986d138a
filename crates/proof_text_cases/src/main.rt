// Judges the law and case texts of standard input, proof lines included. The form of a case is told in many_texts.
#![tactic(auto)]

use judgement::verdict_of;

fn main(rt: HostRuntime) -> anyhow::Result<()> {
    many_texts::judge_cases(&rt, |text| verdict_of(text))
}
