// Definitions and laws: what a run of a table is.
#![tactic(auto)]

// The most ticks of a run.
pub const MAX_TICKS: u32 = 131071;
