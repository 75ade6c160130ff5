// The loading of constraints: the flow on each beside its limit, judged by what a process releases of it.
ghost use Rattle.std.specs.Prelude.{Ok, ◌≡◌, ℕ, ◌*◌, get_or, pos};
ghost use Rattle.std.specs.Int.Signed.{lt_z};
ghost use Rattle.lists.specs.Sets.{set_of};
ghost use Rattle.tariff.specs.Processes.{percent};
ghost use Rattle.tariff.specs.Refusals.{given};
ghost use Rattle.test_rules.specs.TestBook.{test_outcome};
ghost use Rattle.test_rules.specs.Inner.{Judgeable};
ghost use Rattle.test_verdict.specs.Judged.{judged_values};

use tariff::{Flow, Process};
use test_rules::{Flows, Verdict};

// Limits with perhaps more behind them, and flows of which none is so large that a difference leaves 64 bits. Lent, since copies of 64 flows cost more than
// what is done with a few of them.
#[derive(Clone, Copy)]
pub struct Loading<'a> {
    pub constraints: usize,
    pub limits: &'a [u64],
    pub flows: &'a Flows,
    pub ghost judgeable: { Judgeable constraints limits.now flows.now },
}

impl<'a> Loading<'a> {
    // Not one function with `GridTable::of`: another type, of other facts. The count stands beside the limits: a slice cut to it would be cut by
    // each of the six callers, with a law that its limits are the table's.
    pub fn of(constraints: usize, limits: &'a [u64], flows: &'a Flows) -> Self
        requires { Judgeable constraints limits.now flows.now }
        ensures constraints_kept { result.constraints ≡ constraints }
        ensures limits_kept { result.limits.now ≡ limits.now }
        ensures flows_kept { result.flows.now ≡ flows.now }
    {
        Loading {
            constraints,
            limits,
            flows,
        }
    }

    // The set of overloaded constraints, from its highest bit down: bit k is set where the flow on constraint k exceeds its released limit.
    // By index: flows and limits at one number; zips would be nested.
    pub fn overload_set(self, process: Process) -> u64
        ensures { result ≡ set_of self.entry.constraints (λ (k : ℕ).
            lt_z (pos (get_or self.entry.limits.now k 0 * percent process * 1000)) (get_or self.entry.flows.now.flows k (pos 0))) }
    {
        let mut set = 0u64;
        for k in (0..self.constraints).rev() {
            let over = process.released(self.limits[k]) < Flow(self.flows.flows[k]);
            set = set * 2 + over as u64;
        }
        set
    }

    // The answer: pass where the set is empty, else the set, its count of ones, its trailing zeros and the excess there.
    pub fn verdict(self, process: Process) -> Verdict
        ensures { test_outcome (Ok result)
            ≡ given (judged_values self.entry.limits.now process self.entry.flows.now.flows self.entry.constraints) }
    {
        let set = self.overload_set(process);
        if set == 0 {
            return Verdict::Pass;
        }
        let lowest = set.trailing_zeros() as usize;
        let excess = Flow(self.flows.flows[lowest]) - process.released(self.limits[lowest]);
        Verdict::Fail {
            set,
            count: set.count_ones() as usize,
            lowest,
            excess,
        }
    }
}
