// What a gainer receives of a base contract (document 02, paper 5): which contracts migrate, and a gainer's share.
#![tactic(auto)]

ghost use Rattle.std.specs.Prelude.{◌≡◌, cond, ◌≤◌, eqb};
ghost use Rattle.migration_rules.specs.ContractRules.{obliges, migrates as migratesBy, gainer_share};
ghost use Rattle.migration_transfers.specs.Squares.{of_net};
ghost use Rattle.migration_shares.specs.Inner.{NetReady, Held, entity_number};

use tariff::{Contract, Kind, Period, Quantity, Transfer};

fn obligation(kind: Kind) -> bool
    ensures { result ≡ obliges kind }
{
    kind == Kind::Obligation
}

// Whether a holder is one of so many LSEs, which are numbered from 1.
fn is_entity(holder: u64, entities: usize) -> bool
    ensures { result ≡ entity_number entities holder }
{
    0 < holder && holder <= entities as u64
}

// Whether a contract is a base contract: an obligation of the period, held by an LSE.
#[tactic(auto, unfolding(migration_rules::specs::ContractRules::migrates))]
pub fn migrates(c: Contract, period: Period, entities: usize) -> bool
    ensures { result ≡ migratesBy period entities c }
{
    obligation(c.kind) && c.period == period && is_entity(c.holder, entities)
}

// What a gainer receives of a base contract: its proportion by the loser's load, rounded down. The net is the loser's to it.
pub fn share_of(c: Contract, net: Transfer, loads: &[u64]) -> Quantity
    requires { Held loads.now c × NetReady net.0 loads.now c }
    ensures { (result.0 ≡ gainer_share (of_net net.0) loads.now c 1) × (result.0 ≤ c.quantity.0) }
{
    let lost = net.lost();
    if lost == Quantity(0) {
        return Quantity(0);
    }
    let loser = (c.holder - 1) as usize;
    c.quantity.moved(lost, Quantity(loads[loser]))
}

// How many contracts a share makes: nought makes none.
pub fn pair_size(quantity: Quantity) -> usize
    ensures { result ≡ cond (eqb quantity.0 0) 0 2 }
{
    if quantity == Quantity(0) { 0 } else { 2 }
}
