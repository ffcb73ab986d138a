// The state of a case against its faces, and where it moves next.
#![tactic(auto)]

mod faces;
mod next;
mod range;

pub use faces::{Outside, test_state};
pub use next::{Step, aimed, permitted};
pub use range::Permitted;
