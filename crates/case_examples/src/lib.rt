// Examples of cases: permitted next values, states against faces, and the system of a region.
#![tactic(auto)]

#[cfg(test)]
mod tests;
