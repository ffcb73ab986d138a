// The limits of the numbers of a case text, as in specs.
use control::limits::{MOST_INPUTS, MOST_STATES};
use text::number::Limit;

pub const MOST_PUSHES: usize = 2;

pub const MOST_EXTRAS: usize = 8;

pub const DIVISOR_LIMIT: i64 = 1_000_000;

pub const BOUND_LIMIT: i64 = 1_000_000;

pub const ENTRY_LIMIT: i64 = 1_000_000;

pub const CONSTANT_LIMIT: i64 = 100_000_000;

pub const EXTRA_LIMIT: i64 = 1_000_000_000;

pub const LEEWAY_LIMIT: i64 = 1_000_000;

// Limits are written out: a constant calls no function. Those of states and inputs are in law texts too: no crate below both
// has the sizes and `Limit`.
const BOUND: Limit = Limit {
    low: -BOUND_LIMIT,
    high: BOUND_LIMIT,
};

const ENTRY: Limit = Limit {
    low: -ENTRY_LIMIT,
    high: ENTRY_LIMIT,
};

// The numbers of states, inputs, pushes and extra faces, and the divisor.
pub(crate) const SIZES: [Limit; 5] = [
    Limit {
        low: 1,
        high: MOST_STATES as i64,
    },
    Limit {
        low: 1,
        high: MOST_INPUTS as i64,
    },
    Limit {
        low: 0,
        high: MOST_PUSHES as i64,
    },
    Limit {
        low: 0,
        high: MOST_EXTRAS as i64,
    },
    Limit {
        low: 1,
        high: DIVISOR_LIMIT,
    },
];

// Low, high, leeway and constant of a state.
pub(crate) const STATE: [Limit; 4] = [
    BOUND,
    BOUND,
    Limit {
        low: 0,
        high: LEEWAY_LIMIT,
    },
    Limit {
        low: -CONSTANT_LIMIT,
        high: CONSTANT_LIMIT,
    },
];

// Low and high of a push.
pub(crate) const PUSH: [Limit; 2] = [BOUND, BOUND];

// The entries of A, B and E in the dynamics of a state, at the most.
pub(crate) const DYNAMICS: [Limit; 8] = [ENTRY; 8];

// An extra face at four states; at n states its first 4 - n places are left out.
pub(crate) const EXTRA: [Limit; 5] = [
    ENTRY,
    ENTRY,
    ENTRY,
    ENTRY,
    Limit {
        low: -EXTRA_LIMIT,
        high: EXTRA_LIMIT,
    },
];
