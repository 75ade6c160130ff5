#![tactic(auto)]

// Trading hubs (document 02, paper 7): the definitions of a hub's MCC and of the contracts that a hub contract becomes, and their laws. There is no code here.
