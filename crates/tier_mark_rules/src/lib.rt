#![tactic(auto)]

// What marking a tier and returning to one promise, and the laws of both.
