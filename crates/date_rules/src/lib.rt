#![tactic(auto)]

// The calendar of January 2010 to December 2037 (document 02, paper 1): dates, the on-peak rule, and the laws of both. There is no code here.
