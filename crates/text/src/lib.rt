// Texts: byte classes, numbers, fields and lines, with the place of the first fault.
#![tactic(auto)]

pub mod blocks;
pub mod bytes;
pub mod faults;
pub mod fields;
pub mod lines;
pub mod number;
