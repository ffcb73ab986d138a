// Law texts: reading one gives both sizes and the rest of the text, and fills the caller's place with the law's numbers.
#![tactic(auto)]

pub mod fault_report;
pub mod faults;
pub mod head;
pub mod law;
pub mod reading;
pub mod rows;
pub mod table;
