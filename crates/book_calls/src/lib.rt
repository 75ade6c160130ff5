#![tactic(auto)]

// What the entries and the C functions answer on two books that have the same flows and exact totals, and so on a canonical book, migrated or shown to the market
// (document 02, papers 5, 10 and 11). Theorems over their promises; no code.
