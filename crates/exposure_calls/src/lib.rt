#![tactic(auto)]

// Theorems over what the test, the shortfall and the exposure promise: no code.
