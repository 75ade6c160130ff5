// The excesses of a test, in range, so that no sum of them is tested.
ghost use Rattle.std.specs.Prelude.{length};
ghost use Rattle.exposure_prices.specs.Inner.{Excesses};

// The excesses of a test's constraints, one for each. Not `cut_needs::ExcessTable`: sums need each excess bounded and no test beside them.
#[derive(Clone, Copy)]
pub struct ExcessTable<'a> {
    pub cells: &'a [i64],
    pub ghost sized: { Excesses (length cells.now) cells.now },
}
