// The excess at each constraint: what a book's flow there has beyond the released limit.
#![tactic(auto)]

ghost use Rattle.std.specs.Prelude.{◌≡◌, ◌≤◌, length};
ghost use Rattle.lists.specs.Lists.{list_to};
ghost use Rattle.lists.specs.Lent.{before, after, overwrite};
ghost use Rattle.test_excesses.specs.Inner.{excess_in};

use tariff::{Flow, Process};
use test_verdict::Loading;

// The excesses of all constraints, into the first cells of `out`. By index: flows, limits and the cell at one number; zips would be nested.
pub fn fill_excess(loading: Loading, process: Process, out: &mut [i64])
    requires { loading.constraints ≤ length out.old }
    ensures { after out ≡ overwrite (list_to loading.entry.constraints (excess_in loading.entry.limits.now process loading.entry.flows.now.flows)) (before out) }
{
    for k in 0..loading.constraints {
        let excess = Flow(loading.flows.flows[k]) - process.released(loading.limits[k]);
        out[k] = excess.0;
    }
}
