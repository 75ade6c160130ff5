#![tactic(auto)]

// Document 01's checked values P1 to P11: one table, and one theorem over all its rows. There is no code here.
