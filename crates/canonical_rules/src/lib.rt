#![tactic(auto)]

// The canonical form of a book (document 02, paper 11): what it is, that it is the only one, and what it keeps. There is no code here.
