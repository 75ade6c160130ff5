// What a test is of, checked, so that nothing of it is tested again: tables and a book that no check refuses, the process and the period.
ghost use Rattle.std.specs.Prelude.{◌≡◌, ◌≤◌};
ghost use Rattle.tariff.specs.Units.{grid_of, max_limit};
ghost use Rattle.tariff.specs.Processes.{process_of};
ghost use Rattle.tariff.specs.ContractRules.{period_of};
ghost use Rattle.tariff.specs.Refusals.{passed, first};
ghost use Rattle.grid_tables.specs.Inner.{GoodCells, GoodFactors};
ghost use Rattle.grid_tables.specs.Grids.{grid_by};
ghost use Rattle.book_rules.specs.BookChecks.{book_checks};

use crate::Asked;
use grid_tables::GridTable;
use tariff::{Period, Process};

#[derive(Clone, Copy)]
pub struct Tested<'a> {
    pub grid: GridTable<'a>,
    pub process: Process,
    pub period: Period,
    pub book: &'a [u8],
    pub ghost accepted: { first (book_checks grid.factors.nodes book.now) ≡ passed },
}

impl<'a> Tested<'a> {
    pub fn of(asked: Asked, limits: &'a [u64], factors: &'a [i64], book: &'a [u8]) -> Self
        requires tables { GoodCells max_limit asked.constraints limits.now × GoodFactors asked.nodes asked.constraints factors.now }
        requires others { (asked.process ≤ 2) × (first (book_checks asked.nodes book.now) ≡ passed) }
        ensures grid_kept { grid_by result.grid ≡ grid_of asked.nodes asked.constraints limits.now factors.now }
        ensures constraints_kept { result.grid.factors.constraints ≡ asked.constraints }
        ensures process_kept { result.process ≡ process_of asked.process }
        ensures period_kept { result.period ≡ period_of asked.period }
        ensures book_kept { result.book.now ≡ book.now }
    {
        Tested {
            grid: GridTable::of(asked.nodes, asked.constraints, limits, factors),
            process: Process::from(asked.process),
            period: Period::from(asked.period),
            book,
        }
    }
}
