#![tactic(auto)]

// Lists by index, searches of them, sets of numbers, and what lent cells hold: definitions and laws, free of any unit. No code.
