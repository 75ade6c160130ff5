#![tactic(auto)]

// The market's view of a book has the book's figures: flows, verdicts, amounts and totals (document 02, paper 10). There is no code here.
