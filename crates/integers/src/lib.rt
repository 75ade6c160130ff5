#![tactic(auto)]

// Laws of the integers ℤ of the logic: an ordered ring, sums, division and rounding, and what i64 operations give. There is no code here.
