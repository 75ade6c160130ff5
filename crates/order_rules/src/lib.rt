#![tactic(auto)]

// Reordered books and relief by the tariff's rules alone (document 02, paper 14): what another order of the contracts keeps, raised limits, one option
// more. There is no code here.
