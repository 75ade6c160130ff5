// Units as tuple structs. Sums and comparisons keep their unit. A quantity, a price or an MCC is opened only here: in the product rules, in the sums and
// comparisons of its own unit, and to go into a cell.
// `Add`, `Sub`, `Neg` and `From` are written out for each unit: `rt ci` refuses an impl that a macro of the repository's own writes.
// A figure's range stands in the clauses of the rules that need it, and not in its type: a unit has also what no range bounds, a sum, or a field of a file
// before its check. Factors and weights are cells that C lends, plain numbers, and one is bounded where a rule takes it.
ghost use Rattle.std.specs.Prelude.{◌≡◌, ◌+◌, ◌-◌, ◌*◌, ◌/◌, ◌%◌, ◌^◌, ◌≤◌, ◌<◌, pos, nat_abs, neg_ℤ, ◌+ℤ◌, ◌-ℤ◌, ◌*ℤ◌};
ghost use Rattle.integers.specs.Sums.{max0};
ghost use Rattle.integers.specs.Division.{floor_div, floor_mod};
ghost use Rattle.tariff.specs.Units.{max_factor, max_quantity, max_price, max_customers, max_rate, max_load, hub_weight};
ghost use Rattle.tariff.specs.ContractRules.{counted as countedAs};
ghost use Rattle.tariff.specs.Inner.{max_mcc, max_spread, max_weighted};

use crate::contracts::Kind;
use crate::{HUB_WEIGHT, floors};
use std::ops::{Add, Neg, Sub};

// Thousandths of a MW. Any number: loads are quantities too, and so is what a row or a record has before check 13 looks at it.
#[derive(Clone, Copy, Debug, PartialEq, Eq, PartialOrd, Ord)]
pub struct Quantity(pub u64);

impl Add for Quantity {
    type Output = Quantity;

    ghost can_add = { λ a b. a.0 + b.0 < 2 ^ 64 };

    ghost add_gives = { λ a b sum. sum.0 ≡ a.0 + b.0 };

    fn add(self, other: Quantity) -> Quantity {
        Quantity(self.0 + other.0)
    }
}

impl Sub for Quantity {
    type Output = Quantity;

    ghost can_sub = { λ a b. b.0 ≤ a.0 };

    ghost sub_gives = { λ a b rest. rest.0 ≡ a.0 - b.0 };

    fn sub(self, other: Quantity) -> Quantity {
        Quantity(self.0 - other.0)
    }
}

// As a cell of a table or a field of a file.
impl From<Quantity> for u64 {
    ghost from_gives = { λ quantity cell. cell ≡ quantity.0 };

    fn from(quantity: Quantity) -> u64 {
        quantity.0
    }
}

impl Quantity {
    // The product rule of flows: this quantity from source to sink, by their shift factors on one constraint.
    pub fn flow(self, source: i64, sink: i64) -> Flow
        requires { (nat_abs source ≤ max_factor) × (nat_abs sink ≤ max_factor) × (self.0 ≤ max_quantity) }
        ensures { result.0 ≡ (source -ℤ sink) *ℤ pos self.0 }
    {
        let q = self.0 as i64;
        Flow((source - sink) * q)
    }

    // The product rule of an option's flow, which counts only where it is positive: two numbers of 32 bits are multiplied there.
    fn option_flow(self, source: i64, sink: i64) -> Flow
        requires { (nat_abs source ≤ max_factor) × (nat_abs sink ≤ max_factor) × (self.0 ≤ max_quantity) }
        ensures { result.0 ≡ countedAs Kind.Option ((source -ℤ sink) *ℤ pos self.0) }
    {
        let spread = source - sink;
        if spread < 0 {
            return Flow(0);
        }
        let rise = (spread as u32) as u64;
        Flow((rise * self.0) as i64)
    }

    // The flow from source to sink as it counts.
    pub fn counted_flow(self, kind: Kind, source: i64, sink: i64) -> Flow
        requires { (nat_abs source ≤ max_factor) × (nat_abs sink ≤ max_factor) × (self.0 ≤ max_quantity) }
        ensures { result.0 ≡ countedAs kind ((source -ℤ sink) *ℤ pos self.0) }
    {
        match kind {
            Kind::Obligation => self.flow(source, sink),
            Kind::Option => self.option_flow(source, sink),
        }
    }

    // The product rule of shares (02, papers 5 and 7): quantity × part, over the whole, rounded down.
    fn proportion(self, part: u64, whole: u64) -> Quantity
        requires { (self.0 ≤ max_quantity) × (part ≤ whole) × (0 < whole) × (whole ≤ max_load) }
        ensures { (result.0 ≡ self.0 * part / whole) × (result.0 ≤ self.0) }
    {
        Quantity(self.0 * part / whole)
    }

    // What a gainer receives of this quantity: the load lost to it, over the loser's load.
    pub fn moved(self, lost: Quantity, load: Quantity) -> Quantity
        requires { (self.0 ≤ max_quantity) × (lost.0 ≤ load.0) × (0 < load.0) × (load.0 ≤ max_load) }
        ensures { (result.0 ≡ self.0 * lost.0 / load.0) × (result.0 ≤ self.0) }
    {
        self.proportion(lost.0, load.0)
    }

    // A hub's share: its weight, over the whole hub's weight.
    pub fn share(self, weight: u64) -> Quantity
        requires { (self.0 ≤ max_quantity) × (weight ≤ hub_weight) }
        ensures { result.0 ≡ self.0 * weight / hub_weight }
    {
        self.proportion(weight, HUB_WEIGHT)
    }

    // What that leaves, by which leftover thousandths are given.
    pub fn share_rest(self, weight: u64) -> u64
        requires { (self.0 ≤ max_quantity) × (weight ≤ hub_weight) }
        ensures { result ≡ self.0 * weight % hub_weight }
    {
        self.0 * weight % HUB_WEIGHT
    }
}

// Cents per MWh.
#[derive(Clone, Copy, Debug, PartialEq, Eq, PartialOrd, Ord)]
pub struct Price(pub u64);

impl Price {
    // The product rule of congestion (002 part C): shift factor × shadow price.
    pub fn times(self, factor: i64) -> Mcc
        requires { (nat_abs factor ≤ max_factor) × (self.0 ≤ max_price) }
        ensures { result.0 ≡ factor *ℤ pos self.0 }
    {
        // Through 32 bits, so that the compiler knows how small it is.
        let p = (self.0 as u32) as i64;
        Mcc(factor * p)
    }
}

// The marginal cost of congestion: 10^-5 cents per MWh.
#[derive(Clone, Copy, Debug, PartialEq, Eq, PartialOrd, Ord)]
pub struct Mcc(pub i64);

impl Add for Mcc {
    type Output = Mcc;

    ghost can_add = { λ a b. nat_abs a.0 + nat_abs b.0 < 2 ^ 63 };

    ghost add_gives = { λ a b sum. sum.0 ≡ a.0 +ℤ b.0 };

    fn add(self, other: Mcc) -> Mcc {
        Mcc(self.0 + other.0)
    }
}

impl Sub for Mcc {
    type Output = Mcc;

    ghost can_sub = { λ a b. nat_abs a.0 + nat_abs b.0 < 2 ^ 63 };

    ghost sub_gives = { λ a b rest. rest.0 ≡ a.0 -ℤ b.0 };

    fn sub(self, other: Mcc) -> Mcc {
        Mcc(self.0 - other.0)
    }
}

impl Neg for Mcc {
    type Output = Mcc;

    ghost can_neg = { λ a. nat_abs a.0 < 2 ^ 63 };

    ghost neg_gives = { λ a back. back.0 ≡ neg_ℤ a.0 };

    fn neg(self) -> Mcc {
        Mcc(-self.0)
    }
}

// As a cell of a table.
impl From<Mcc> for i64 {
    ghost from_gives = { λ mcc cell. cell ≡ mcc.0 };

    fn from(mcc: Mcc) -> i64 {
        mcc.0
    }
}

impl Mcc {
    // The product rule of amounts (003, 36.2.1): a difference of two MCCs × quantity.
    pub fn times(self, quantity: Quantity) -> Amount
        requires { (nat_abs self.0 ≤ max_spread) × (quantity.0 ≤ max_quantity) }
        ensures { result.0 ≡ self.0 *ℤ pos quantity.0 }
    {
        let q = quantity.0 as i64;
        Amount(self.0 * q)
    }

    // The product rule of a hub's MCC (02, paper 7): a node's weight × its MCC.
    pub fn weighted(self, weight: u64) -> WeightedMcc
        requires { (nat_abs self.0 ≤ max_mcc) × (weight ≤ hub_weight) }
        ensures { result.0 ≡ pos weight *ℤ self.0 }
    {
        let w = weight as i64;
        WeightedMcc(w * self.0)
    }
}

// MCCs times hub weights: 10^-10 cents per MWh.
#[derive(Clone, Copy, Debug, PartialEq, Eq, PartialOrd, Ord)]
pub struct WeightedMcc(pub i64);

impl Add for WeightedMcc {
    type Output = WeightedMcc;

    ghost can_add = { λ a b. nat_abs a.0 + nat_abs b.0 < 2 ^ 63 };

    ghost add_gives = { λ a b sum. sum.0 ≡ a.0 +ℤ b.0 };

    fn add(self, other: WeightedMcc) -> WeightedMcc {
        WeightedMcc(self.0 + other.0)
    }
}

impl WeightedMcc {
    // Over the whole hub's weight, rounded down.
    pub fn quotient(self) -> Mcc
        requires { nat_abs self.0 ≤ max_weighted }
        ensures { (result.0 ≡ floor_div self.0 hub_weight) × (nat_abs result.0 ≤ max_mcc) }
    {
        Mcc(floors::floor_quotient(self.0, HUB_WEIGHT))
    }

    // What is left above it.
    pub fn remainder(self) -> u64
        requires { nat_abs self.0 ≤ max_weighted }
        ensures { (result ≡ floor_mod self.0 hub_weight) × (result < hub_weight) }
    {
        floors::floor_remainder(self.0, HUB_WEIGHT)
    }
}

// Load that went from one LSE to another, less what came back (02, paper 5): thousandths of a MW.
#[derive(Clone, Copy, Debug, PartialEq, Eq, PartialOrd, Ord)]
pub struct Transfer(pub i64);

impl Add for Transfer {
    type Output = Transfer;

    ghost can_add = { λ a b. nat_abs a.0 + nat_abs b.0 < 2 ^ 63 };

    ghost add_gives = { λ a b sum. sum.0 ≡ a.0 +ℤ b.0 };

    fn add(self, other: Transfer) -> Transfer {
        Transfer(self.0 + other.0)
    }
}

impl Neg for Transfer {
    type Output = Transfer;

    ghost can_neg = { λ a. nat_abs a.0 < 2 ^ 63 };

    ghost neg_gives = { λ a back. back.0 ≡ neg_ℤ a.0 };

    fn neg(self) -> Transfer {
        Transfer(-self.0)
    }
}

impl Transfer {
    // The product rule of a row: customers moved × thousandths of a MW per customer.
    pub fn of_row(customers: u64, rate: u64) -> Transfer
        requires { (customers ≤ max_customers) × (rate ≤ max_rate) }
        ensures { result.0 ≡ pos (customers * rate) }
    {
        Transfer((customers * rate) as i64)
    }

    // What is lost: nothing where the transfer is not above 0.
    pub fn lost(self) -> Quantity
        ensures { result.0 ≡ nat_abs (max0 self.0) }
    {
        if self.0 < 0 {
            return Quantity(0);
        }
        Quantity(self.0 as u64)
    }
}

// 10^-8 MW. Its cells are written by `.0`, in three places: a `From` would be no plainer.
#[derive(Clone, Copy, Debug, PartialEq, Eq, PartialOrd, Ord)]
pub struct Flow(pub i64);

impl Add for Flow {
    type Output = Flow;

    ghost can_add = { λ a b. nat_abs a.0 + nat_abs b.0 < 2 ^ 63 };

    ghost add_gives = { λ a b sum. sum.0 ≡ a.0 +ℤ b.0 };

    fn add(self, other: Flow) -> Flow {
        Flow(self.0 + other.0)
    }
}

impl Sub for Flow {
    type Output = Flow;

    ghost can_sub = { λ a b. nat_abs a.0 + nat_abs b.0 < 2 ^ 63 };

    ghost sub_gives = { λ a b rest. rest.0 ≡ a.0 -ℤ b.0 };

    fn sub(self, other: Flow) -> Flow {
        Flow(self.0 - other.0)
    }
}

// 10^-8 cents for one hour.
#[derive(Clone, Copy, Debug, PartialEq, Eq, PartialOrd, Ord)]
pub struct Amount(pub i64);

impl Amount {
    // This amount as it counts: an option is never charged.
    pub fn counted(self, kind: Kind) -> Amount
        ensures { result.0 ≡ countedAs kind self.0 }
    {
        match kind {
            Kind::Obligation => self,
            Kind::Option => { if self.0 < 0 { Amount(0) } else { self } }
        }
    }
}
