// A 28F256 behind its bus: six operations, what they mean, and the rules that they keep.
#![tactic(auto)]

mod bus;
mod command;
mod runs;
mod state;
pub mod timing;

pub use bus::Chip;
pub use command::{Command, NoCommand};
pub use runs::capacity;
pub use state::{Code, Marks, Mode, Run, Signature, Tallies, Turn, Voltage};
