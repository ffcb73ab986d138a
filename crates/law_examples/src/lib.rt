// Examples of the saturated law and the fixed law: commands, regions, rows and refusals.
#![tactic(auto)]

#[cfg(test)]
mod tests;
