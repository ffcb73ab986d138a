// Check: a case is accepted with a controller exactly when its proof lines are a certificate.
#![tactic(auto)]

pub mod fault_report;
pub mod faults;
mod lines;
mod named;
mod trusted;

pub use trusted::{Trusted, check};
