// Document 01's units, contracts, processes and refusals as types, and its counts and ranges as constants.
#![tactic(auto)]

mod contracts;
mod floors;
mod processes;
mod refusals;
mod units;

pub use contracts::{Contract, Kind, Period};
pub use processes::Process;
pub use refusals::{
    Refusal, answer_cell, answer_number, nodes_bad, nodes_outside, quantity_bad, zero_or_above,
};
pub use units::{Amount, Flow, Mcc, Price, Quantity, Transfer, WeightedMcc};

// Counts: 1 to 4,000 nodes, 200 in a narrow file, 0 to 64 constraints, 0 to 1,000 contracts.
pub const MAX_NODES: usize = 4000;

pub const MAX_NARROW_NODES: usize = 200;

pub const MAX_CONSTRAINTS: usize = 64;

pub const MAX_CONTRACTS: usize = 1000;

// Ranges: holders, thousandths of a MW, hundred-thousandths, thousandths of a MW, cents per MWh.
pub const MAX_HOLDER: u64 = 1023;

pub const MAX_QUANTITY: u64 = 1000000;

pub const MAX_FACTOR: i64 = 100000;

pub const MAX_LIMIT: u64 = 100000000;

pub const MAX_PRICE: u64 = 500000;

// Document 02, paper 13: coordinators, cents of either sign, units of demand.
pub const MAX_COORDINATORS: usize = 256;

pub const MAX_BALANCE: i64 = 1000000000;

pub const MAX_DEMAND: u64 = 1000000000;

// Document 02, paper 5: load-serving entities, rows, customers of a row, thousandths of a MW per customer, thousandths of a MW.
pub const MAX_ENTITIES: usize = 16;

pub const MAX_ROWS: usize = 1000;

pub const MAX_CUSTOMERS: u64 = 1000000;

pub const MAX_RATE: u64 = 10000;

pub const MAX_LOAD: u64 = 1000000000000;

// Document 02, paper 7: nodes of a hub, and what their weights total.
pub const MAX_HUB_NODES: usize = 32;

pub const HUB_WEIGHT: u64 = 100000;

// Parts of a cent: 10^-8.
pub const PER_CENT: u64 = 100000000;
