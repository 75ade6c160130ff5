// What settling an hour promises, what it gives, and the laws of it.
#![tactic(auto)]

ghost use Rattle.std.specs.Prelude.{◌≡◌, ◌≤◌, nat_abs};
ghost use Rattle.tariff.specs.Inner.{max_amount};
ghost use Rattle.hour_priced.specs.Inner.{posted_in};

use grid_tables::HourTable;
use tariff::{Amount, Period};

// An hour to settle: its tables, its period, and the constraints whose price isn't 0, as a set.
#[derive(Clone, Copy)]
pub struct PricedHour<'a> {
    pub tables: HourTable<'a>,
    pub period: Period,
    pub posted: u64,
    pub ghost posted_is: { posted ≡ posted_in tables.factors.constraints tables.prices.now },
}

impl<'a> PricedHour<'a> {
    pub fn of(tables: HourTable<'a>, period: Period) -> Self
        ensures tables_kept { result.tables ≡ tables.entry }
        ensures period_kept { result.period ≡ period }
    {
        PricedHour {
            tables,
            period,
            posted: hour_priced::posted_set(tables.factors.constraints, tables.prices),
        }
    }
}

// A contract's amount, no larger than one can be, with the set of constraints that priced it: bit k for constraint k.
#[derive(Clone, Copy)]
pub struct PricedAmount {
    pub amount: Amount,
    pub priced: u64,
    pub ghost sized: { nat_abs amount.0 ≤ max_amount },
}

// The totals of contracts settled: the sum of the rounded cents, and the exact total as whole cents rounded down and parts.
// Whole cents and parts stand here by themselves: `Exact` is of exposure_figures, on which settling doesn't stand, and a sum goes with both.
#[derive(Clone, Copy)]
pub struct Totals {
    pub sum: i64,
    pub whole: i64,
    pub parts: u64,
}
