// A carrier crosses the address lines between the station and a chip, and is itself a chip.
#![tactic(auto)]

mod carrier;
mod crossing;

pub use carrier::{Carrier, MirrorCarrier};
pub use crossing::{Crossing, Mirror};
