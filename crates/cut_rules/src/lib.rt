// The least cut of one contract that clears a failing book (document 02, paper 12), its closed form, and what listing these cuts promises and gives.
#![tactic(auto)]

// Contract numbers are below this: a row is sorted as one number, its cut times this and its contract's number.
pub const KEY_BASE: u64 = 1024;
