#![tactic(auto)]

// What holds of the answers of two entries on dates, and of their C functions. There is no code here.
