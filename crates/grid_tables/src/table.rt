// A table of factors with its counts, in range, so that neither is tested again, the tables of a grid, and those of an hour.
ghost use Rattle.std.specs.Prelude.{◌≡◌, ◌<◌};
ghost use Rattle.tariff.specs.Units.{max_limit};
ghost use Rattle.grid_tables.specs.Inner.{GoodCells, GoodFactors, Hour, RowOf};

// The factors of a grid of so many nodes and constraints: all of node 0, then node 1 and so on, and perhaps more cells behind them.
#[derive(Clone, Copy)]
pub struct FactorTable<'a> {
    pub nodes: usize,
    pub constraints: usize,
    pub cells: &'a [i64],
    pub ghost good: { GoodFactors nodes constraints cells.now },
}

impl<'a> FactorTable<'a> {
    pub fn of(nodes: usize, constraints: usize, cells: &'a [i64]) -> Self
        requires { GoodFactors nodes constraints cells.now }
        ensures nodes_kept { result.nodes ≡ nodes }
        ensures constraints_kept { result.constraints ≡ constraints }
        ensures cells_kept { result.cells.now ≡ cells.now }
    {
        FactorTable {
            nodes,
            constraints,
            cells,
        }
    }

    // The factors of a node, one for each constraint.
    pub fn row(self, node: usize) -> &'a [i64]
        requires { node < self.nodes }
        ensures { RowOf self.entry.nodes self.entry.constraints self.entry.cells.now node result.now }
    {
        let from = node * self.constraints;
        &self.cells[from..from + self.constraints]
    }
}

// The tables of a grid: the factors, and a limit for each constraint, with perhaps more behind them.
#[derive(Clone, Copy)]
pub struct GridTable<'a> {
    pub factors: FactorTable<'a>,
    pub limits: &'a [u64],
    pub ghost good: { GoodCells max_limit factors.constraints limits.now },
}

impl<'a> GridTable<'a> {
    // Not one function with those of `HourTable` and `test_verdict::Loading`: each makes its own type of its own facts.
    pub fn of(nodes: usize, constraints: usize, limits: &'a [u64], factors: &'a [i64]) -> Self
        requires { GoodCells max_limit constraints limits.now × GoodFactors nodes constraints factors.now }
        ensures nodes_kept { result.factors.nodes ≡ nodes }
        ensures constraints_kept { result.factors.constraints ≡ constraints }
        ensures limits_kept { result.limits.now ≡ limits.now }
        ensures factors_kept { result.factors.cells.now ≡ factors.now }
    {
        GridTable {
            factors: FactorTable::of(nodes, constraints, factors),
            limits,
        }
    }
}

// The tables of an hour: the factors, and a price for each constraint, with perhaps more behind them.
#[derive(Clone, Copy)]
pub struct HourTable<'a> {
    pub factors: FactorTable<'a>,
    pub prices: &'a [u64],
    pub ghost good: { Hour factors.nodes factors.constraints factors.cells.now prices.now },
}

impl<'a> HourTable<'a> {
    pub fn of(nodes: usize, constraints: usize, factors: &'a [i64], prices: &'a [u64]) -> Self
        requires { Hour nodes constraints factors.now prices.now }
        ensures nodes_kept { result.factors.nodes ≡ nodes }
        ensures constraints_kept { result.factors.constraints ≡ constraints }
        ensures factors_kept { result.factors.cells.now ≡ factors.now }
        ensures prices_kept { result.prices.now ≡ prices.now }
    {
        HourTable {
            factors: FactorTable::of(nodes, constraints, factors),
            prices,
        }
    }
}
