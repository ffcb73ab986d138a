// The system of a region: its size and its rows.
#![tactic(auto)]

mod closed_loop;
mod fault;
mod fill;
mod kinds;
mod row;
mod size;
mod system;

pub use closed_loop::ClosedLoop;
pub use fault::SystemFault;
pub use row::system_row;
pub use size::{SystemSize, system_size};
pub use system::System;
