// A socket with no chip in it: every reading is FFh, and no pulse moves a cell.
ghost use Rattle.std.specs.Prelude.{◌≡◌};
ghost use Rattle.socket.specs.Registers.{kept, fresh};
ghost use Rattle.socket.specs.Sockets.{vacant, Floats, vacant_after};
ghost use Rattle.socket.specs.Vacancy.{vacant_lawful, vacant_ordered, vacant_sized};

use crate::register::CommandRegister;
use chip::{Chip, Code, Voltage};

// The size that an empty socket answers.
pub const SOCKET_SIZE: u16 = 32_768;

// What the bus reads where nothing drives it.
pub const FLOATING: u8 = 0xFF;

// What a signature cycle reads where no chip answers.
pub const NO_CODE: u8 = 0xFF;

#[derive(Clone, Copy, Debug, Default, PartialEq)]
pub struct EmptySocket {
    pub register: CommandRegister,
}

impl EmptySocket {
    pub fn new() -> EmptySocket
        ensures { kept result.register ≡ fresh }
    {
        EmptySocket::default()
    }
}

impl Chip for EmptySocket {
    ghost meaning = { λ s. vacant (kept s.register) };

    ghost takes = { λ s c t. (kept t.register ≡ vacant_after c (kept s.register)) × Floats c };

    ghost lawful = { λ s c t h. vacant_lawful (kept s.register) c (kept t.register) h.0 h.1 };

    ghost ordered = { λ s. vacant_ordered (kept s.register) };

    ghost sized = { λ s. vacant_sized };

    fn size(&self) -> u16 {
        SOCKET_SIZE
    }

    fn write_cycle(&mut self, address: u16, byte: u8) {
        if self.register.voltage == Voltage::High {
            let ended = self.register.pulse_ended(SOCKET_SIZE, false);
            self.register = ended.told(SOCKET_SIZE, address, byte);
        }
    }

    fn read_cycle(&mut self, _address: u16) -> u8 {
        FLOATING
    }

    fn signature_cycle(&mut self, _code: Code) -> u8 {
        NO_CODE
    }

    fn wait(&mut self, micros: u16) {
        self.register = self.register.waited(micros);
    }

    fn set_voltage(&mut self, voltage: Voltage) {
        self.register = self
            .register
            .pulse_ended(SOCKET_SIZE, false)
            .powered(voltage);
    }
}
