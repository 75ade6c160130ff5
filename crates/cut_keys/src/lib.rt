// The keys of the least cuts that clear a failing book, in order: each contract's cut and number as one number.
#![tactic(auto)]

ghost use Rattle.std.specs.Prelude.{◌≡◌, cond, map, ℕ, ◌≤◌, ◌<◌, ltb, length, take};
ghost use Rattle.lists.specs.Lent.{after};
ghost use Rattle.tariff.specs.Units.{max_contracts};
ghost use Rattle.tariff.specs.ContractRules.{InRange};
ghost use Rattle.layouts.specs.BookFile.{book_in, contract_count_in, contract_at};
ghost use Rattle.grid_tables.specs.Grids.{grid_by};
ghost use Rattle.cut_rules.specs.Cuts.{least_cuts};
ghost use Rattle.cut_rules.specs.Inner.{cut_key, row_key, keys_to};
ghost use Rattle.cut_keys.specs.Inner.{own_cut_by};

use book_bits::Contracts;
use cut_needs::ExcessTable;
use cut_rules::KEY_BASE;
use tariff::{Contract, MAX_CONSTRAINTS, Quantity};
use test_terms::Tested;
use test_verdict::Loading;

// The key of a contract that is of the period and has a cut. `InRange` is asked as `ExcessTable::least_cut` asks it.
fn key_of(excesses: ExcessTable, c: Contract, number: usize) -> Option<u64>
    requires { InRange excesses.test.grid.factors.nodes c × (number < 1024) }
    ensures { result ≡ cond (ltb 0 (own_cut_by excesses.entry c)) (Some (cut_key (own_cut_by excesses.entry c) number)) None }
{
    if c.period == excesses.test.period {
        let cut = excesses.least_cut(c);
        if cut == Quantity(0) {
            return None;
        }
        return Some(u64::from(cut) * KEY_BASE + number as u64);
    }
    None
}

// The keys of a book's contracts, in the book's order.
fn collect_keys(excesses: ExcessTable, keys: &mut [u64]) -> usize
    requires { length keys.old ≡ max_contracts }
    ensures upper_bound { (result ≤ max_contracts) × (length (after keys) ≡ max_contracts) }
    ensures keys_value { take result (after keys)
        ≡ keys_to (λ (i : ℕ). own_cut_by excesses.entry (contract_at excesses.entry.test.book.now i)) (contract_count_in excesses.entry.test.book.now) }
{
    let contracts = Contracts::of(excesses.test.book);
    let mut count = 0;
    for i in 0..contracts.len() {
        if let Some(key) = key_of(excesses, contracts.at(i), i) {
            keys[count] = key;
            count += 1;
        }
    }
    count
}

// The keys of the least cuts, in order, into the first cells of `keys`. Gives how many there are.
pub fn row_keys(test: Tested, keys: &mut [u64]) -> usize
    requires { length keys.old ≡ max_contracts }
    ensures upper_bound { (result ≤ max_contracts) × (length (after keys) ≡ max_contracts) }
    ensures keys_value { take result (after keys)
        ≡ map row_key (least_cuts (grid_by test.entry.grid) test.entry.process test.entry.period (book_in test.entry.book.now)) }
{
    let grid = test.grid;
    let flows = test_flows::carry(grid.factors, test.period, test.book);
    let loading = Loading::of(grid.factors.constraints, grid.limits, &flows);
    if loading.overload_set(test.process) == 0 {
        return 0;
    }
    let mut cells = [0i64; MAX_CONSTRAINTS];
    test_excesses::fill_excess(loading, test.process, &mut cells);
    let count = collect_keys(ExcessTable::of(test, &cells), keys);
    sorting::sort(&mut keys[..count]);
    count
}
