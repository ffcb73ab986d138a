// The limits of controllers and of their laws, as in specs.
pub const MOST_STATES: usize = 4;

pub const MOST_INPUTS: usize = 2;

pub const STATE_LIMIT: u64 = 1_000_000;

pub const SETTING_LIMIT: u64 = 500_000;

pub const GAIN_LIMIT: u64 = 10_000;

pub const OFFSET_LIMIT: u64 = 100_000_000;

pub const MOST_DIVISOR: i64 = 1_000;
