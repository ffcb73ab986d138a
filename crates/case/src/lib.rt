// Cases: the loop on whole numbers, with its bounds, its faces and the part of the text that holds the proof lines.
#![tactic(auto)]

pub mod equations;
pub mod fault_report;
pub mod faults;
pub mod limits;
pub mod reading;
pub mod rows;
pub mod sections;
pub mod sizes;
pub mod values;
