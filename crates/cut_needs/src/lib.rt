// The least cut of one contract of a tested book that takes every excess away.
#![tactic(auto)]

ghost use Rattle.std.specs.Prelude.{◌≡◌, cond, ℕ, ◌≤◌, ◌<◌, leb, pos, nat_abs, ◌-ℤ◌, ◌<ℤ◌, ◌≤ℤ◌};
ghost use Rattle.tariff.specs.Units.{max_factor, max_quantity};
ghost use Rattle.tariff.specs.ContractRules.{counted, InRange};
ghost use Rattle.cut_rules.specs.Inner.{need_at, raised_to};
ghost use Rattle.cut_needs.specs.Inner.{Excesses, Overloads, cell_at};

use tariff::{Contract, Flow, Kind, Quantity};
use test_terms::Tested;

// What a tested book exceeds: the excess at each constraint, and where the overloaded ones stand, from `from` on, up to `upto`.
#[derive(Clone, Copy)]
pub struct ExcessTable<'a> {
    pub test: Tested<'a>,
    pub cells: &'a [i64],
    pub from: usize,
    pub upto: usize,
    pub ghost sized: { Excesses test.grid.factors.constraints cells.now },
    pub ghost overloads: { Overloads test.grid.factors.constraints from upto cells.now },
}

// The cut that an overload needs: so many times the slope is at least the overload. 0 where the slope is not above 0, or where that is more than `most`.
fn cut_needed(over: Flow, slope: Flow, most: Quantity) -> Quantity
    requires { pos 0 <ℤ over.0 }
    ensures { result.0 ≡ cond (leb (need_at over.0 slope.0) most.0) (need_at over.0 slope.0) 0 }
{
    if slope.0 <= 0 {
        return Quantity(0);
    }
    let cut = Quantity((over.0 as u64).div_ceil(slope.0 as u64));
    if most < cut {
        return Quantity(0);
    }
    cut
}

// The need raised to what an overload asks at two factors, and 0 where no cut up to `most` is enough. It divides only where the need is short.
// Its bounds are asked as facts: a `Quantity` may also be a load or a sum, and a factor is a cell of a lent table, so no type of theirs has them.
fn raised(
    over: Flow,
    kind: Kind,
    source: i64,
    sink: i64,
    most: Quantity,
    need: Quantity,
) -> Quantity
    requires source_bound { (nat_abs source ≤ max_factor) × (nat_abs sink ≤ max_factor) × (need.0 ≤ most.0) × (most.0 ≤ max_quantity) }
    requires pos_bound { pos 0 <ℤ over.0 }
    ensures { result.0 ≡ raised_to over.0 (counted kind (source -ℤ sink)) most.0 need.0 }
{
    let relief = need.counted_flow(kind, source, sink);
    if relief < over {
        let slope = Quantity(1).counted_flow(kind, source, sink);
        return cut_needed(over, slope, most);
    }
    need
}

// The lowest overloaded constraint: none stands before it.
// The table may be longer than the constraints: `Excesses` says it by both.
fn first_overload(constraints: usize, excesses: &[i64]) -> usize
    requires { Excesses constraints excesses.now }
    ensures { (result ≤ constraints) × ((j : ℕ) → j < result → cell_at excesses.now j ≤ℤ pos 0) }
{
    // By number: its contract says that none stands before it, also where none is found.
    for k in 0..constraints {
        if 0 < excesses[k] {
            return k;
        }
    }
    constraints
}

// Where the overloaded constraints end: none stands from there on. By both, and by number, as above.
fn overloads_end(constraints: usize, excesses: &[i64]) -> usize
    requires { Excesses constraints excesses.now }
    ensures { (result ≤ constraints) × ((j : ℕ) → result ≤ j → j < constraints → cell_at excesses.now j ≤ℤ pos 0) }
{
    for k in (0..constraints).rev() {
        if 0 < excesses[k] {
            return k + 1;
        }
    }
    0
}

impl<'a> ExcessTable<'a> {
    ghost use Rattle.cut_needs.specs.Tables.{enough_by, cut_by};

    pub fn of(test: Tested<'a>, cells: &'a [i64]) -> Self
        requires { Excesses test.grid.factors.constraints cells.now }
        ensures test_kept { result.test ≡ test.entry }
        ensures cells_kept { result.cells.now ≡ cells.now }
    {
        ExcessTable {
            test,
            cells,
            from: first_overload(test.grid.factors.constraints, cells),
            upto: overloads_end(test.grid.factors.constraints, cells),
        }
    }

    // The cut that a contract's overloads need, up to its quantity: the least, where it is enough at every constraint.
    // A contract that does not relieve an overload is left at once, with 0. That its ends and quantity are in range is asked here and below, one fact at a time:
    // a type for such a contract would be made for each contract of the book, to be read by these alone.
    fn least_need(self, c: Contract) -> Quantity
        requires { InRange self.test.grid.factors.nodes c }
        ensures { (result.0 ≤ c.quantity.0) × (cut_by self.entry c ≡ cond (enough_by self.entry c result.0) result.0 0) }
    {
        let source = self.test.grid.factors.row(c.source);
        let sink = self.test.grid.factors.row(c.sink);
        let mut need = Quantity(0);
        for k in self.from..self.upto {
            if 0 < self.cells[k] {
                let over = Flow(self.cells[k]);
                need = raised(over, c.kind, source[k], sink[k], c.quantity, need);
                if need == Quantity(0) {
                    return need;
                }
            }
        }
        need
    }

    // Whether a cut of a contract is enough at every constraint: its counter-flow is taken away too.
    fn clears(self, c: Contract, cut: Quantity) -> bool
        requires { InRange self.test.grid.factors.nodes c × (cut.0 ≤ max_quantity) }
        ensures { result ≡ enough_by self.entry c cut.0 }
    {
        let source = self.test.grid.factors.row(c.source);
        let sink = self.test.grid.factors.row(c.sink);
        for k in 0..self.test.grid.factors.constraints {
            let relief = cut.counted_flow(c.kind, source[k], sink[k]);
            if relief < Flow(self.cells[k]) {
                return false;
            }
        }
        true
    }

    // The least cut of a contract, and 0 for none, here and above: `need_at`, `raised_to` (cut_rules) and `cut_in` have 0 for none, and no cut is 0.
    pub fn least_cut(self, c: Contract) -> Quantity
        requires { InRange self.test.grid.factors.nodes c }
        ensures { (result.0 ≡ cut_by self.entry c) × (result.0 ≤ max_quantity) }
    {
        let need = self.least_need(c);
        if need != Quantity(0) && self.clears(c, need) {
            need
        } else {
            Quantity(0)
        }
    }
}
