#![tactic(auto)]

// The running test over what its entries and C functions promise: any run of calls on its cells, awards held in another order, and the awards held as a book
// (document 02, papers 4 and 14). Theorems; no code.
