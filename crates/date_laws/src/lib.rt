#![tactic(auto)]

// What holds of every month of the calendar, each law from one test at all 336 of them that antt computes. There is no code here.
