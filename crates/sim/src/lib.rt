// A simulated chip over a table of slow places.
#![tactic(auto)]

mod slow;

pub use slow::{SlowChip, TableChip};
