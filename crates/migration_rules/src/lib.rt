#![tactic(auto)]

// Load migration (document 02, paper 5): the definitions of net transfers and of the contracts that follow them, and their laws. There is no code here.
