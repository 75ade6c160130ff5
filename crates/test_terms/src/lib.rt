// The terms of a test as they are asked, by number, the checks of tables by them, and the test that they ask for, checked.
#![tactic(auto)]

ghost use Rattle.std.specs.Prelude.{◌≡◌};
ghost use Rattle.tariff.specs.Refusals.{first};
ghost use Rattle.grid_tables.specs.TableChecks.{grid_table_checks};

mod tested;

use tariff::Refusal;
pub use tested::Tested;

// What a test is asked beside its tables and its book: nothing here is checked yet.
// Process and period are numbers, as C gives them: 16 and 17 refuse those of none.
#[derive(Clone, Copy)]
pub struct Asked {
    pub nodes: usize,
    pub constraints: usize,
    pub process: u64,
    pub period: u64,
}

// What finding flows is asked: a test's terms without the process. A struct of its own: C's entries that find flows are given no process.
#[derive(Clone, Copy)]
pub struct AskedFlows {
    pub nodes: usize,
    pub constraints: usize,
    pub period: u64,
}

// The test's checks up to 7, of what is asked and its tables, which are no `GridTable` before them.
pub fn check_tables(asked: Asked, limits: &[u64], factors: &[i64]) -> Result<(), Refusal>
    ensures { result ≡ first (grid_table_checks asked.nodes asked.constraints asked.process asked.period limits.now factors.now) }
{
    grid_tables::check_grid_tables(
        asked.nodes,
        asked.constraints,
        asked.process,
        asked.period,
        limits,
        factors,
    )
}
