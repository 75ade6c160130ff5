#![tactic(auto)]

// Reordered books and relief in what the entries answer (document 02, paper 14): the test, the flows, an hour, and which books are accepted. There is no
// code here.
