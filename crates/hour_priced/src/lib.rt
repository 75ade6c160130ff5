// Which constraints priced a contract (02, paper 8): those whose price isn't 0 and on which source and sink have different factors.
// A set is made from its highest bit down, eight bits at once.
#![tactic(auto)]

ghost use Rattle.std.specs.Prelude.{◌≡◌, ℕ, ◌+◌, ◌-◌, ◌*◌, ◌/◌, ◌^◌, ◌≤◌, ◌<◌, length};
ghost use Rattle.lists.specs.Sets.{set_of};
ghost use Rattle.tariff.specs.Units.{max_constraints};
ghost use Rattle.tariff.specs.ContractRules.{InRange};
ghost use Rattle.tariff.specs.Settlement.{priced_set_of};
ghost use Rattle.grid_tables.specs.Hours.{factors_by, prices_by};
ghost use Rattle.hour_priced.specs.Inner.{FactorRow, differ_at, posted_in};

use grid_tables::{FactorTable, HourTable};
use tariff::{Contract, Price};

// Whether the factors in two cells differ, as a bit.
// Here and below `FactorRow` is asked of another count and another cell at each step, so that no type holds it.
fn differ(factors: &[i64], a: usize, b: usize) -> u64
    requires { FactorRow factors.now a 1 × FactorRow factors.now b 1 }
    ensures { (result ≡ set_of 1 (differ_at factors.now a b)) × (result < 2) }
{
    (factors[a] != factors[b]) as u64
}

// The same of two cells, four and eight, behind the bits of a set. Not one function over a const parameter: each calls that of half its cells, and Rattle
// computes no const argument.
fn two_more(factors: &[i64], a: usize, b: usize, set: u64) -> u64
    requires { FactorRow factors.now a 2 × FactorRow factors.now b 2 × (set < 2 ^ 62) }
    ensures { (result ≡ set * 4 + set_of 2 (differ_at factors.now a b)) × (result < (set + 1) * 4) }
{
    let high = differ(factors, a + 1, b + 1);
    let low = differ(factors, a, b);
    (set * 2 + high) * 2 + low
}

fn four_more(factors: &[i64], a: usize, b: usize, set: u64) -> u64
    requires { FactorRow factors.now a 4 × FactorRow factors.now b 4 × (set < 2 ^ 60) }
    ensures { (result ≡ set * 16 + set_of 4 (differ_at factors.now a b)) × (result < (set + 1) * 16) }
{
    let high = two_more(factors, a + 2, b + 2, set);
    two_more(factors, a, b, high)
}

fn eight_more(factors: &[i64], a: usize, b: usize, set: u64) -> u64
    requires { FactorRow factors.now a 8 × FactorRow factors.now b 8 × (set < 2 ^ 56) }
    ensures { result ≡ set * 256 + set_of 8 (differ_at factors.now a b) }
{
    let high = four_more(factors, a + 4, b + 4, set);
    four_more(factors, a, b, high)
}

// The constraints behind the last whole eight.
fn rest_differ(table: FactorTable, source: usize, sink: usize) -> u64
    requires { FactorRow table.cells.now source table.constraints × FactorRow table.cells.now sink table.constraints }
    ensures { result ≡ set_of (table.entry.constraints - table.entry.constraints / 8 * 8)
        (λ (j : ℕ). differ_at table.entry.cells.now source sink (table.entry.constraints / 8 * 8 + j)) }
{
    let mut set = 0u64;
    for k in (table.constraints / 8 * 8..table.constraints).rev() {
        let bit = differ(table.cells, source + k, sink + k);
        set = set * 2 + bit;
    }
    set
}

// The constraints on which the factors from `source` on differ from those from `sink` on.
fn differ_set(table: FactorTable, source: usize, sink: usize) -> u64
    requires { FactorRow table.cells.now source table.constraints × FactorRow table.cells.now sink table.constraints }
    ensures { result ≡ set_of table.entry.constraints (differ_at table.entry.cells.now source sink) }
{
    let mut set = rest_differ(table, source, sink);
    for eight in (0..table.constraints / 8).rev() {
        let k = eight * 8;
        set = eight_more(table.cells, source + k, sink + k, set);
    }
    set
}

// The constraints whose price isn't 0.
// Its own prices and no `HourTable`: they need not be in range.
pub fn posted_set(constraints: usize, prices: &[u64]) -> u64
    requires { (constraints ≤ max_constraints) × (constraints ≤ length prices.now) }
    ensures { result ≡ posted_in constraints prices.now }
{
    let mut set = 0u64;
    // By number from the last, as the invariant counts the bits that are made.
    for k in (0..constraints).rev() {
        let bit = (Price(0) < Price(prices[k])) as u64;
        set = set * 2 + bit;
    }
    set
}

// The set of constraints that priced a contract, by those whose price isn't 0.
pub fn priced_set(hour: HourTable, posted: u64, c: Contract) -> u64
    requires { InRange hour.factors.nodes c × (posted ≡ posted_in hour.factors.constraints hour.prices.now) }
    ensures { result ≡ priced_set_of (factors_by hour.entry) (prices_by hour.entry) c }
{
    let source = c.source * hour.factors.constraints;
    let sink = c.sink * hour.factors.constraints;
    differ_set(hour.factors, source, sink) & posted
}
