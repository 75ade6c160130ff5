// The flows of a book's contracts of one period, carried together with the number of contracts counted.
#![tactic(auto)]

ghost use Rattle.std.specs.Prelude.{◌≡◌, [], ◌≤◌, length};
ghost use Rattle.lists.specs.Lent.{before, after};
ghost use Rattle.lists.specs.Lists.{list_to};
ghost use Rattle.tariff.specs.Refusals.{passed, first};
ghost use Rattle.tariff.specs.declared.contracts.Contract.{Contract};
ghost use Rattle.tariff.specs.declared.contracts.Period.{Period};
ghost use Rattle.tariff.specs.Units.{Factors, factors_of, max_constraints};
ghost use Rattle.tariff.specs.ContractRules.{of_period};
ghost use Rattle.layouts.specs.BookFile.{book_in, contract_count_in, book_form_in, contract_at};
ghost use Rattle.book_rules.specs.BookChecks.{book_checks};
ghost use Rattle.test_rules.specs.Inner.{FlowRoom};
ghost use Rattle.test_rules.specs.Carried.{Carries};
ghost use Rattle.test_flows.specs.Inner.{Ends, AddsRows};

use book_bits::Contracts;
use grid_tables::FactorTable;
use std::cmp::min;
use tariff::{Contract, Flow, MAX_CONSTRAINTS, Period};
use test_rules::Flows;

// How many contracts a step takes in: it copies the 64 flows in and out, which takes as long as adding a contract's on ten constraints.
const STEP: usize = 16;

// No contract yet.
fn no_flows() -> Flows
    ensures { (f : Factors) → f.constraints ≤ max_constraints → Carries f [] result }
{
    Flows {
        flows: [0i64; MAX_CONSTRAINTS],
        count: 0,
    }
}

// One step: the contracts from number `from` up to `upto`, those of the other period left out. A step by two numbers is document 01's form: `Flows` go by
// value from step to step.
fn step(
    flows: Flows,
    table: FactorTable,
    period: Period,
    contracts: Contracts,
    from: usize,
    upto: usize,
) -> Flows
    requires accepted { first (book_checks table.nodes contracts.file.now) ≡ passed }
    requires of_book { (contracts.form ≡ book_form_in contracts.file.now) × (contracts.count ≡ contract_count_in contracts.file.now) }
    requires some { (from ≤ upto) × (upto ≤ contracts.count) }
    requires carries { Carries (factors_of table.nodes table.constraints table.cells.now)
        (of_period period (list_to from (contract_at contracts.file.now))) flows }
    ensures { Carries (factors_of table.entry.nodes table.entry.constraints table.entry.cells.now)
        (of_period period (list_to upto (contract_at contracts.entry.file.now))) result }
{
    let mut carried = flows;
    for i in from..upto {
        let c = contracts.at(i);
        if c.period == period {
            let source = table.row(c.source);
            let sink = table.row(c.sink);
            add_flow(&mut carried.flows, c, source, sink);
            carried.count += 1;
        }
    }
    carried
}

// Adds a contract's flow, as it counts, on every constraint, by the rows of factors of its ends: whatever table they are of (`Adds`, by `rows_added`).
pub fn add_flow(flows: &mut [i64; MAX_CONSTRAINTS], c: Contract, source: &[i64], sink: &[i64])
    requires { Ends source.now sink.now c × FlowRoom (length source.now) flows.old }
    ensures { AddsRows source.now sink.now c (before flows) (after flows) }
{
    for (k, flow) in flows[..source.len()].iter_mut().enumerate() {
        let more = c.quantity.counted_flow(c.kind, source[k], sink[k]);
        *flow = (Flow(*flow) + more).0;
    }
}

// The flows of a book's contracts of one period, those of the other period left out. It takes no `Tested`: finding flows has no process, and the report judges
// the same flows in three.
pub fn carry(table: FactorTable, period: Period, book: &[u8]) -> Flows
    requires { first (book_checks table.nodes book.now) ≡ passed }
    ensures { Carries (factors_of table.entry.nodes table.entry.constraints table.entry.cells.now)
        (of_period period (book_in book.now)) result }
{
    let contracts = Contracts::of(book);
    let count = contracts.len();
    let mut flows = no_flows();
    for from in (0..count).step_by(STEP) {
        let upto = min(from + STEP, count);
        flows = step(flows, table, period, contracts, from, upto);
    }
    flows
}
