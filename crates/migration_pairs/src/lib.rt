// The contracts that follow one base contract (document 02, paper 5): for each gainer its own and the loser's, counted, and stored behind a book's others.
#![tactic(auto)]

ghost use Rattle.std.specs.Prelude.{◌≡◌, List, ℕ, ◌+◌, ◌≤◌, ◌<◌, length, get_or, nat_abs};
ghost use Rattle.lists.specs.Lent.{before, after};
ghost use Rattle.tariff.specs.declared.units.Transfer.{Transfer};
ghost use Rattle.tariff.specs.Units.{max_contracts, max_entities, max_quantity};
ghost use Rattle.layouts.specs.Forms.{end_width};
ghost use Rattle.layouts.specs.BookFile.{book_bytes_of};
ghost use Rattle.layouts.specs.BookTable.{ContractFits};
ghost use Rattle.migration_rules.specs.ContractRules.{gained, countered};
ghost use Rattle.migration_transfers.specs.Squares.{no_transfer};
ghost use Rattle.migration_transfers.specs.Inner.{SizedRow, SizedSquare, max_net};
ghost use Rattle.migration_shares.specs.Inner.{Held};
ghost use Rattle.book_growth.specs.Inner.{Appended};
ghost use Rattle.migration_pairs.specs.Inner.{GainersOf, LosersOf, Basis, pair_of};
ghost use Rattle.migration_pairs.specs.Bases.{pairs_by, new_by};

mod base;

pub use base::Base;
use layouts::Form;
use migration_transfers::{Row, Square};
use tariff::{Contract, Kind, MAX_ENTITIES, Period, Quantity, Transfer};

// How many contracts follow a base contract, share by share.
fn pair_count(base: Base) -> usize
    requires { Held base.loads.now base.contract }
    ensures { (result ≡ length (pairs_by base.entry)) × (result ≤ 32) }
{
    let mut count = 0;
    let row = base.row;
    for net in &row[..base.loads.len()] {
        let share = migration_shares::share_of(base.contract, *net, base.loads);
        count += migration_shares::pair_size(share);
    }
    count
}

// How many LSEs gain of a loser, and the least net that one of them gains: 0 where none does.
// No `Option` for the least: a net of 0 is no gain, and its share is nought as that of none.
#[derive(Clone, Copy)]
pub struct Gainers {
    pub count: usize,
    pub least: Transfer,
}

// Those of each loser.
pub type Losers = [Gainers; MAX_ENTITIES];

// One LSE more, by the loser's net to it.
fn with_net(gainers: Gainers, net: Transfer) -> Gainers
    requires { (nat_abs net.0 ≤ max_net) × (nat_abs gainers.least.0 ≤ max_net) × (gainers.count < max_entities) }
    ensures { (row : List Transfer) (m : ℕ) → get_or row m no_transfer ≡ net → GainersOf row m gainers → GainersOf row (m + 1) result }
{
    let lost = net.lost();
    if lost == Quantity(0) {
        return gainers;
    }
    let least = gainers.least;
    let lowest = least.lost();
    let count = gainers.count + 1;
    if lowest == Quantity(0) || lost < lowest {
        return Gainers { count, least: net };
    }
    Gainers { count, least }
}

// Those of a loser among so many LSEs, by its row. `SizedRow` and `entities ≤ max_entities` stay clauses, as said in migration_transfers.
pub fn gainers_of(row: Row, entities: usize) -> Gainers
    requires { SizedRow row × (entities ≤ max_entities) }
    ensures { GainersOf row entities result }
{
    let mut gainers = Gainers {
        count: 0,
        least: Transfer(0),
    };
    for net in &row[..entities] {
        gainers = with_net(gainers, *net);
    }
    gainers
}

// Those of each loser, by the square.
pub fn losers_of(square: Square, entities: usize) -> Losers
    requires { SizedSquare square × (entities ≤ max_entities) }
    ensures { LosersOf square entities result }
{
    let none = Gainers {
        count: 0,
        least: Transfer(0),
    };
    let mut losers = [none; MAX_ENTITIES];
    for (i, row) in square.iter().enumerate() {
        losers[i] = gainers_of(*row, entities);
    }
    losers
}

// How many contracts follow a base contract: where the least share is not nought, a pair for each gainer.
fn base_count(base: Base, gainers: Gainers) -> usize
    requires { Held base.loads.now base.contract × GainersOf base.row.now (length base.loads.now) gainers }
    ensures { (result ≡ length (pairs_by base.entry)) × (result ≤ 32) }
{
    let least = migration_shares::share_of(base.contract, gainers.least, base.loads);
    if least == Quantity(0) {
        return pair_count(base);
    }
    gainers.count * 2
}

// How many follow any contract: none where it is no base contract.
pub fn new_count(base: Base, period: Period, gainers: Gainers) -> usize
    requires { (base.contract.quantity.0 ≤ max_quantity) × GainersOf base.row.now (length base.loads.now) gainers }
    ensures { (result ≡ length (new_by base.entry period)) × (result ≤ 32) }
{
    if migration_shares::migrates(base.contract, period, base.loads.len()) {
        return base_count(base, gainers);
    }
    0
}

// The gainer's contract.
fn gained_by(c: Contract, gainer: u64, quantity: Quantity) -> Contract
    ensures { result ≡ gained c gainer quantity.0 }
{
    Contract {
        kind: Kind::Obligation,
        holder: gainer,
        quantity,
        ..c
    }
}

// The loser's: as much, with source and sink exchanged.
fn countered_by(c: Contract, quantity: Quantity) -> Contract
    ensures { result ≡ countered c quantity.0 }
{
    Contract {
        kind: Kind::Obligation,
        source: c.sink,
        sink: c.source,
        quantity,
        ..c
    }
}

// Stores the contracts of one share at place `at` of a book, and gives the next place. `file` and `form` are of the book that is written: `Contracts` is of one
// that is read.
fn store_pair(
    file: &mut [u8],
    form: Form,
    at: usize,
    c: Contract,
    gainer: u64,
    quantity: Quantity,
) -> usize
    requires quantity_bound { (at + length (pair_of c gainer quantity.0) ≤ max_contracts)
        × (book_bytes_of form (at + length (pair_of c gainer quantity.0)) ≤ length file.old) }
    requires contract_fits { ContractFits (end_width form) c × (gainer ≤ 16) × (quantity.0 ≤ c.quantity.0) }
    ensures { Appended form at (pair_of c gainer quantity.0) (before file) (after file) result }
{
    if quantity == Quantity(0) {
        return at;
    }
    let gained = gained_by(c, gainer, quantity);
    let countered = countered_by(c, quantity);
    book_bits::store_contract(file, form, at, gained);
    book_bits::store_contract(file, form, at + 1, countered);
    at + 2
}

// Stores all contracts of a base contract, gainer by gainer.
fn store_pairs(file: &mut [u8], form: Form, at: usize, base: Base) -> usize
    requires held { Held base.loads.now base.contract }
    requires basis { Basis form (pairs_by base) at base.contract file.old }
    ensures { Appended form at (pairs_by base.entry) (before file) (after file) result }
{
    let mut place = at;
    for j in 0..base.loads.len() {
        let quantity = migration_shares::share_of(base.contract, base.row[j], base.loads);
        place = store_pair(file, form, place, base.contract, (j + 1) as u64, quantity);
    }
    place
}

// Stores what follows any contract: nothing where it is no base contract.
pub fn store_new(file: &mut [u8], form: Form, at: usize, base: Base, period: Period) -> usize
    requires { Basis form (new_by base period) at base.contract file.old }
    ensures { Appended form at (new_by base.entry period) (before file) (after file) result }
{
    if migration_shares::migrates(base.contract, period, base.loads.len()) {
        return store_pairs(file, form, at, base);
    }
    at
}
