// The commands, and the bytes that stand for them.
ghost use Rattle.std.specs.Prelude.{◌≡◌, ◌++◌, Some, codes, decimal};
ghost use Rattle.chip.specs.Commands.{Stands, byte_of};

use std::error::Error;
use std::fmt;

// What the command register may be told by a byte.
#[derive(Clone, Copy, Debug, PartialEq)]
pub enum Command {
    Read = 0x00,
    Sign = 0x90,
    // Written twice: the setup, then the pulse.
    Erase = 0x20,
    Program = 0x40,
    EraseVerify = 0xA0,
    ProgramVerify = 0xC0,
    Reset = 0xFF,
}

impl From<Command> for u8 {
    ghost from_gives = { λ command byte. byte ≡ byte_of command };

    fn from(command: Command) -> u8 {
        command as u8
    }
}

// A byte that stands for no command.
#[derive(Clone, Copy, Debug, PartialEq)]
pub struct NoCommand(pub u8);

impl TryFrom<u8> for Command {
    type Error = NoCommand;

    ghost try_from_gives = { Stands };

    // Each byte once more: no cast leads from a number to a case.
    fn try_from(byte: u8) -> Result<Command, NoCommand> {
        match byte {
            0x00 => Ok(Command::Read),
            0x90 => Ok(Command::Sign),
            0x20 => Ok(Command::Erase),
            0x40 => Ok(Command::Program),
            0xA0 => Ok(Command::EraseVerify),
            0xC0 => Ok(Command::ProgramVerify),
            0xFF => Ok(Command::Reset),
            _ => Err(NoCommand(byte)),
        }
    }
}

impl fmt::Display for NoCommand {
    ghost output = { λ e. Some (codes "no command has the byte " ++ decimal e.0) };

    fn fmt<W: fmt::Write>(&self, f: &mut fmt::Formatter<W>) -> fmt::Result {
        write!(f, "no command has the byte {}", self.0)
    }
}

impl Error for NoCommand {}
