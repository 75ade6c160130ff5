// A running test of one period's awards: it is opened, and awards are added that keep every flow within its released limit.
#![tactic(auto)]

mod adding;
mod opening;

pub use adding::add_award;
pub use opening::open_running;
