#![tactic(auto)]

// Laws between an entry's answer and what its C function gives. There is no code here.
