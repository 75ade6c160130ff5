// What a contract adds to an hour: its amount in cents and exactly, with the set of constraints that priced it, and the totals with one amount more.
#![tactic(auto)]

ghost use Rattle.std.specs.Prelude.{◌≡◌, ℤ, pos, ◌+ℤ◌};
ghost use Rattle.tariff.specs.Units.{max_contracts};
ghost use Rattle.tariff.specs.Inner.{max_amount};
ghost use Rattle.tariff.specs.ContractRules.{InRange};
ghost use Rattle.grid_tables.specs.Hours.{factors_by, prices_by};
ghost use Rattle.hour_rules.specs.Inner.{EndMccs, AmountOf, Bounded, Added};
ghost use Rattle.hour_amounts.specs.Inner.{UpFrom, SizedAmount, SettledAs, HourSettled};

use hour_priced::priced_set;
use hour_rules::{PricedAmount, PricedHour, Totals};
use tariff::{Contract, MAX_CONSTRAINTS, MAX_FACTOR, MAX_PRICE, MAX_QUANTITY, Mcc, PER_CENT};

// The largest amount, in 10^-8 cents and in cents: the difference of two MCCs × quantity.
const MAX_AMOUNT: u64 = 2
    * (MAX_FACTOR as u64)
    * MAX_PRICE
    * (MAX_CONSTRAINTS as u64)
    * MAX_QUANTITY;

const MAX_CENTS: i64 = (MAX_AMOUNT / PER_CENT) as i64;

// A contract's amount in cents, and exactly as whole cents rounded down and parts, with the set of constraints that priced it.
#[derive(Clone, Copy)]
pub struct SettledAmount {
    pub cents: i64,
    pub whole: i64,
    pub parts: u64,
    pub priced: u64,
}

// The exact amount of a contract (003, 36.2.1 and 36.2.2), by the MCCs of its sink and of its source, with the constraints that priced it.
fn amount_of(hour: PricedHour, c: Contract, sink: Mcc, source: Mcc) -> PricedAmount
    requires { InRange hour.tables.factors.nodes c × EndMccs hour.tables c sink source }
    ensures { AmountOf (factors_by hour.entry.tables) (prices_by hour.entry.tables) c result }
{
    let amount = (sink - source).times(c.quantity).counted(c.kind);
    let priced = priced_set(hour.tables, hour.posted, c);
    PricedAmount { amount, priced }
}

// An amount with the largest one added, so that it is not below 0 and one division serves either sign.
fn raised(exact: PricedAmount) -> u64
    ensures { pos result ≡ exact.amount.0 +ℤ pos max_amount }
{
    let amount = exact.amount.0;
    if amount < 0 {
        MAX_AMOUNT - ((-amount) as u64)
    } else {
        MAX_AMOUNT + (amount as u64)
    }
}

// From how many parts on the cents are one above the whole cents: from half a cent on, and below 0 from more than that.
fn up_from(exact: PricedAmount) -> u64
    ensures { UpFrom exact.amount.0 result }
{
    if exact.amount.0 < 0 {
        PER_CENT / 2 + 1
    } else {
        PER_CENT / 2
    }
}

// An amount in cents and exactly, by one division.
fn settled(exact: PricedAmount) -> SettledAmount
    ensures { SettledAs exact.amount.0 result × (result.priced ≡ exact.priced) }
{
    let raised = raised(exact);
    let up = up_from(exact);
    let whole = ((raised / PER_CENT) as i64) - MAX_CENTS;
    let parts = raised % PER_CENT;
    let cents = if parts < up { whole } else { whole + 1 };
    SettledAmount {
        cents,
        whole,
        parts,
        priced: exact.priced,
    }
}

// What a contract adds to an hour of the period, and what priced it, by the MCCs of its two ends: nothing for the other period's.
pub fn hour_amount(hour: PricedHour, c: Contract, sink: Mcc, source: Mcc) -> SettledAmount
    requires { InRange hour.tables.factors.nodes c × EndMccs hour.tables c sink source }
    ensures { HourSettled (factors_by hour.entry.tables) (prices_by hour.entry.tables) hour.entry.period c result }
{
    if c.period == hour.period {
        settled(amount_of(hour, c, sink, source))
    } else {
        SettledAmount {
            cents: 0,
            whole: 0,
            parts: 0,
            priced: 0,
        }
    }
}

// One contract's amount more: its whole cents and parts are added, and a cent of parts is carried.
pub fn add_settled(totals: Totals, amount: SettledAmount) -> Totals
    requires { SizedAmount amount × Bounded max_contracts totals }
    ensures { (z : ℤ) → SettledAs z amount → Added totals z result }
{
    let sum = totals.sum + amount.cents;
    let whole = totals.whole + amount.whole;
    let parts = totals.parts + amount.parts;
    if parts < PER_CENT {
        Totals { sum, whole, parts }
    } else {
        Totals {
            sum,
            whole: whole + 1,
            parts: parts - PER_CENT,
        }
    }
}
