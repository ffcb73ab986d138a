// Reports of what a run found: a printer into byte slices, and the record of a verdict.
#![tactic(auto)]

pub mod faults;
pub mod print;
pub mod verdict;
