// Examples of check: the worked certificate, and what changes in it bring.
#![tactic(auto)]

#[cfg(test)]
mod tests;
