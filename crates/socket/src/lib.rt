// What every simulated chip keeps besides its cells, and the simplest of them: an empty socket.
#![tactic(auto)]

mod register;
mod socket;

pub use register::CommandRegister;
pub use socket::{EmptySocket, FLOATING, NO_CODE, SOCKET_SIZE};
