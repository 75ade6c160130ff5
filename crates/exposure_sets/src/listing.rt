// A few constraints of what is tested, in a list.
ghost use Rattle.std.specs.Prelude.{length};
ghost use Rattle.exposure_sets.specs.Inner.{Chosen};

use test_terms::Tested;

// Constraints of which every set is tried, with what is tested.
#[derive(Clone, Copy)]
pub struct Listing<'a> {
    pub tested: Tested<'a>,
    pub over: &'a [usize],
    pub ghost chosen: { Chosen tested.grid.factors.constraints (length over.now) over.now },
}
