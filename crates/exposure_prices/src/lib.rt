// Price lists and figures by the excesses: how many constraints are overloaded and which, the highest price on some of them, where a figure is largest.
#![tactic(auto)]

ghost use Rattle.std.specs.Prelude.{◌≡◌, cond, ◌&&◌, ℕ, ◌*◌, ◌/◌, ◌^◌, ◌≤◌, ◌<◌, length, pos, nat_abs, ◌*ℤ◌};
ghost use Rattle.std.specs.Int.Signed.{lt_z};
ghost use Rattle.integers.specs.Sums.{max0, sum_to};
ghost use Rattle.lists.specs.Sets.{count_of};
ghost use Rattle.lists.specs.Lent.{before, after, overwrite};
ghost use Rattle.tariff.specs.Units.{max_price};
ghost use Rattle.test_excesses.specs.Inner.{cell_at};
ghost use Rattle.exposure_rules.specs.Exposure.{highest_where, largest_of};
ghost use Rattle.exposure_figures.specs.Inner.{Exactly};
ghost use Rattle.exposure_prices.specs.Inner.{max_excess, Figures, above_in, chosen_in, set_in, top_in, Listed};

mod table;

use exposure_figures::Exact;
use std::ops::Range;
pub use table::ExcessTable;
use tariff::{MAX_PRICE, PER_CENT};

// Of the sets of overloaded constraints tried so far the one that costs the most, the lowest such, and what it costs.
#[derive(Clone, Copy)]
pub struct Best {
    pub set: u64,
    pub cost: Exact,
}

// So many 10^-8 MW at the highest price.
pub fn at_highest(units: u64) -> Exact
    requires { units < 2 ^ 62 }
    ensures { Exactly (pos units *ℤ pos max_price) result }
{
    Exact {
        whole: (units / (PER_CENT / MAX_PRICE)) as i64,
        parts: units % (PER_CENT / MAX_PRICE) * MAX_PRICE,
    }
}

// What of an excess is above 0.
fn above_zero(excess: i64) -> u64
    requires { nat_abs excess ≤ max_excess }
    ensures { (pos result ≡ max0 excess) × (result ≤ max_excess) }
{
    excess.max(0) as u64
}

// All excesses above 0, added.
pub fn total_above(excesses: ExcessTable) -> u64
    ensures { (pos result ≡ sum_to (length excesses.entry.cells.now) (λ (j : ℕ). max0 (cell_at excesses.entry.cells.now j))) × (result ≤ max_excess * 64) }
{
    let mut total = 0u64;
    for excess in excesses.cells {
        total += above_zero(*excess);
    }
    total
}

// Of two places the one of the larger figure, the lower where they are equal: a place and no figure, so neither `max` nor an order of a type's own gives it.
fn larger(cells: &[i64], low: usize, high: usize) -> usize
    requires low_in_bounds { (low < length cells.now) × (high < length cells.now) × (high < 1024) × (low < 1024) }
    requires low_bound { (nat_abs (cell_at cells.now low) < 2 ^ 62) × (nat_abs (cell_at cells.now high) < 2 ^ 62) }
    ensures { result ≡ cond (lt_z (cell_at cells.now low) (cell_at cells.now high)) high low }
{
    if cells[low] < cells[high] { high } else { low }
}

// Where a figure is largest, the lowest such place.
pub fn largest_cell(cells: &[i64]) -> usize
    requires { Figures (length cells.now) cells.now }
    ensures { result ≡ largest_of (length cells.now) (cell_at cells.now) }
{
    let mut largest = 0;
    for k in 0..cells.len() {
        largest = larger(cells, largest, k);
    }
    largest
}

// The highest price on an overloaded constraint that is chosen, and 0 on another.
fn price_at(excess: i64, chosen: bool) -> u64
    ensures { result ≡ cond (lt_z (pos 0) excess && chosen) max_price 0 }
{
    if 0 < excess && chosen { MAX_PRICE } else { 0 }
}

// The prices of all constraints, into the first cells of `prices`: the highest on the overloaded ones of a range.
pub fn fill_prices(excesses: ExcessTable, chosen: Range<usize>, prices: &mut [u64])
    requires { length excesses.cells.now ≤ length prices.old }
    ensures { after prices ≡ overwrite
        (highest_where (length excesses.entry.cells.now) (chosen_in excesses.entry.cells.now chosen.start chosen.end)) (before prices) }
{
    for (k, price) in prices[..excesses.cells.len()].iter_mut().enumerate() {
        *price = price_at(excesses.cells[k], chosen.contains(&k));
    }
}

// What the highest price costs on the constraint of the largest excess alone: nothing where there is none above 0.
pub fn alone_shortfall(excesses: ExcessTable, largest: usize) -> Exact
    ensures { Exactly (top_in (length excesses.entry.cells.now) excesses.entry.cells.now largest *ℤ pos max_price) result }
{
    if largest < excesses.cells.len() {
        at_highest(above_zero(excesses.cells[largest]))
    } else {
        at_highest(0)
    }
}

// What is left of the number behind the constraint: an overloaded one has taken its bit.
fn set_left(excess: i64, left: u64) -> u64
    ensures { result ≡ cond (lt_z (pos 0) excess) (left / 2) left }
{
    if 0 < excess { left / 2 } else { left }
}

// The prices of all constraints, into the first cells of `prices`: the highest on a set of overloaded ones.
pub fn fill_set(excesses: ExcessTable, set: u64, prices: &mut [u64])
    requires { length excesses.cells.now ≤ length prices.old }
    ensures { after prices ≡ overwrite (highest_where (length excesses.entry.cells.now) (set_in excesses.entry.cells.now set)) (before prices) }
{
    let mut left = set;
    // By index: what is written is said cell by cell (`set_in`).
    for (k, price) in prices[..excesses.cells.len()].iter_mut().enumerate() {
        *price = price_at(excesses.cells[k], left % 2 == 1);
        left = set_left(excesses.cells[k], left);
    }
}

// The overloaded constraints, into the first cells of `over`. Gives how many there are.
pub fn fill_over(excesses: ExcessTable, over: &mut [usize]) -> usize
    requires { length over.old ≡ 64 }
    ensures { (result ≡ count_of (length excesses.entry.cells.now) (above_in excesses.entry.cells.now))
        × Listed (length excesses.entry.cells.now) (above_in excesses.entry.cells.now) (after over) × (length (after over) ≡ 64) }
{
    let mut count = 0;
    for (k, excess) in excesses.cells.iter().enumerate() {
        if 0 < *excess {
            over[count] = k;
            count += 1;
        }
    }
    count
}

// A cost at one cent, at the highest price, where it is above 0.
fn cost_at(cost: i64) -> Exact
    requires { nat_abs cost < 2 ^ 62 }
    ensures { Exactly (max0 cost *ℤ pos max_price) result }
{
    at_highest(cost.max(0) as u64)
}

// Of so many costs at one cent the largest, the first such, at the highest price.
pub fn best_of(costs: &[i64]) -> Best
    requires { Figures (length costs.now) costs.now × (0 < length costs.now) }
    ensures { (result.set ≡ largest_of (length costs.now) (cell_at costs.now)) × Exactly (max0 (cell_at costs.now result.set) *ℤ pos max_price) result.cost }
{
    let set = largest_cell(costs);
    Best {
        set: set as u64,
        cost: cost_at(costs[set]),
    }
}
