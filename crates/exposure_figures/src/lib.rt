// Figures in 10^-8 cents that may exceed 64 bits, and the congestion rent of all constraints as one.
#![tactic(auto)]

ghost use Rattle.std.specs.Prelude.{◌≡◌, ℕ, ◌+◌, ◌*◌, ◌^◌, ◌≤◌, ◌<◌, pos, ◌-ℤ◌};
ghost use Rattle.integers.specs.Sums.{sum_to};
ghost use Rattle.tariff.specs.Units.{max_constraints, max_limit, max_price, per_cent};
ghost use Rattle.tariff.specs.Processes.{percent};
ghost use Rattle.grid_tables.specs.Inner.{GoodCells};
ghost use Rattle.exposure_figures.specs.Inner.{exact_of, Exactly, rent_in, rent_of, max_rent, max_rent_cents, RentBounded, Paid};

use std::ops::{Add, Sub};
use tariff::{PER_CENT, Process};

// A figure in 10^-8 cents that may exceed 64 bits: whole cents rounded down, and parts, so that the order of the fields is that of the figures (`order-is`).
#[derive(Clone, Copy, Debug, PartialEq, Eq, PartialOrd, Ord)]
pub struct Exact {
    pub whole: i64,
    pub parts: u64,
}

// A rent, which is never below 0, so whole cents of their own type: its sum has no sign to carry.
#[derive(Clone, Copy, Debug, PartialEq, Eq, PartialOrd, Ord)]
pub struct Owed {
    pub whole: u64,
    pub parts: u64,
}

// So many 10^-8 cents more: a cent of parts is carried.
impl Add<u64> for Owed {
    type Output = Owed;

    ghost can_add = { λ owed more. (more ≤ max_rent) × RentBounded 64 owed };

    ghost add_gives = { λ owed more total. (rent_of total ≡ rent_of owed + more) × (total.parts < per_cent) × (total.whole ≤ owed.whole + max_rent_cents) };

    fn add(self, more: u64) -> Owed {
        let whole = self.whole + more / PER_CENT;
        let parts = self.parts + more % PER_CENT;
        if parts < PER_CENT {
            Owed { whole, parts }
        } else {
            Owed {
                whole: whole + 1,
                parts: parts - PER_CENT,
            }
        }
    }
}

impl Owed {
    // The same as a figure that may be below 0. No `From`, which asks nothing: the rent's bound is what makes its whole cents fit.
    pub fn exact(self) -> Exact
        requires { RentBounded 64 self }
        ensures { Exactly (pos (rent_of self)) result }
    {
        Exact {
            whole: self.whole as i64,
            parts: self.parts,
        }
    }
}

// What is paid less a rent: a cent is borrowed where the parts are fewer.
impl Sub<Owed> for Exact {
    type Output = Exact;

    ghost can_sub = { λ paid owed. Paid paid × RentBounded 64 owed };

    ghost sub_gives = { λ paid owed rest. Exactly (exact_of paid -ℤ pos (rent_of owed)) rest };

    fn sub(self, owed: Owed) -> Exact {
        let whole = self.whole - owed.whole as i64;
        if self.parts < owed.parts {
            Exact {
                whole: whole - 1,
                parts: PER_CENT - owed.parts + self.parts,
            }
        } else {
            Exact {
                whole,
                parts: self.parts - owed.parts,
            }
        }
    }
}

// The rent on a constraint, in 10^-8 cents: at most 5 × 10^18.
fn rent_at(process: Process, limit: u64, price: u64) -> u64
    requires { (limit ≤ max_limit) × (price ≤ max_price) }
    ensures { (result ≡ limit * percent process * 1000 * price) × (result ≤ max_rent) }
{
    limit * process.percent() * 1000 * price
}

// The rent of all constraints.
pub fn rent(constraints: usize, process: Process, limits: &[u64], prices: &[u64]) -> Owed
    requires { (constraints ≤ max_constraints) × GoodCells max_limit constraints limits.now × GoodCells max_price constraints prices.now }
    ensures { (pos (rent_of result) ≡ sum_to constraints (λ (j : ℕ). pos (rent_in limits.now process prices.now j))) × RentBounded 64 result }
{
    let mut total = Owed { whole: 0, parts: 0 };
    for (limit, price) in limits[..constraints].iter().zip(&prices[..constraints]) {
        total = total + rent_at(process, *limit, *price);
    }
    total
}
