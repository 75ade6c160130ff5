#![tactic(auto)]

// Laws of flows: they are additive in the quantity, for both kinds. There is no code here.
