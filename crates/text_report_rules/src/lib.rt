#![tactic(auto)]

// What the report of a grid and a book says, and the laws of it.
