// Document 01's grid file: a reader into lent tables. All checks come first, in the paper's order; then all is written.
#![tactic(auto)]

mod reading;
mod within;

pub use reading::read_grid;
pub use within::read_within;
