#![tactic(auto)]

// What remapping a book promises, and the laws of it.
