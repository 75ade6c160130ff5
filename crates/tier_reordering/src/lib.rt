#![tactic(auto)]

// Reordering and relief of the awards that a running test holds (document 02, papers 14 and 4). There is no code here.
