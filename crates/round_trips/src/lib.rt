#![tactic(auto)]

// Each of the three files there and back, over what its reader and its writer promise. Theorems; no code.
