#![tactic(auto)]

// The market's view and a holder's view of a book (document 02, paper 10), and what each tells of the holders. There is no code here.
