#![tactic(auto)]

// What a running test promises, and the laws of it.
