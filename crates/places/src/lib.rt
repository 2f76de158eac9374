// The places of a slow chip, and the table that holds them.
#![tactic(auto)]

mod check;
mod place;
mod sizes;
mod strikes;
mod table;

pub use check::{TableFault, check_table};
pub use place::{Place, Strikes};
pub use sizes::chip_size;
pub use table::PlaceTable;
