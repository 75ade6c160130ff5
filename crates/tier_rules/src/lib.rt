// The running test of tiers (document 02, paper 4): the sizes of the buffers that hold its state.
#![tactic(auto)]

// The lent buffers: six cells for each of 1,000 awards; two numbers and three more for each tier; a flow for each constraint and as many more for each tier.
pub const AWARDS_CELLS: usize = 6000;

pub const NUMBERS: usize = 14;

pub const FLOWS: usize = 320;

// The flows of a state, or of a mark.
pub const BLOCK: usize = 64;

// Tiers 1, 2, 3 and LT, which is given as 4.
pub const MAX_TIER: u64 = 4;
