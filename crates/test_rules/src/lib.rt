// What the simultaneous feasibility test promises, what it carries and answers, and the laws of both.
#![tactic(auto)]

use tariff::{Flow, MAX_CONSTRAINTS};

// The flow on all constraints, carried together with the number of contracts counted.
#[derive(Clone, Copy)]
pub struct Flows {
    pub flows: [i64; MAX_CONSTRAINTS],
    pub count: usize,
}

// What the test finds where no check refuses.
#[derive(Clone, Copy)]
pub enum Verdict {
    Pass,
    Fail {
        set: u64,
        count: usize,
        lowest: usize,
        excess: Flow,
    },
}
