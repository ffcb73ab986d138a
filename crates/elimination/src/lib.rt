// The rows of a Fourier-Motzkin elimination: combined exactly, held against limits, one column at a time.
#![tactic(auto)]

mod column;
mod divisor;
mod lists;
mod pair;
mod row;
mod rows;

pub use column::eliminate;
pub use divisor::common_divisor;
pub use pair::combine;
pub use row::{COLUMNS, Column, MULTIPLIERS, ProperRow, Row, Stop};
pub use rows::ProperRows;
