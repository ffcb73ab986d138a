// Controllers: the interface, the fixed law and the saturated law.
#![tactic(auto)]

mod controller;
mod covered;
mod fault;
mod fixed;
mod input;
pub mod limits;
mod lines;
mod per_input;
mod saturated;
mod state;

pub use controller::Controller;
pub use covered::covered_command;
pub use fault::ControlFault;
pub use fixed::Fixed;
pub use input::Input;
pub use saturated::Saturated;
