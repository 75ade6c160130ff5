// What sharing a balance promises, and the laws of it.
#![tactic(auto)]
