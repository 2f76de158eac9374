// What a simulated chip keeps besides its cells, and what a cycle makes of it.
ghost use Rattle.std.specs.Prelude.{◌≡◌, ℕ, true, ◌%◌};
ghost use Rattle.chip.specs.Rules.{after, wait, after_short, after_program, after_erase, resets, commanded, chosen, timed};
ghost use Rattle.socket.specs.Registers.{kept, fresh, pulse_ended, told, powered};

use chip::timing::{ERASE_PULSE, PROGRAM_PULSE};
use chip::{Command, Marks, Mode, Voltage};

// To the rules it is the register that `kept` makes of it. That is no view of the type (`impl Model`): a struct that holds
// a type with one is not covered where it is passed by value and used again, as a copy is.
#[derive(Clone, Copy, Debug, Default, PartialEq)]
pub struct CommandRegister {
    pub marks: Marks,
    pub voltage: Voltage,
    pub mode: Mode,
}

// An address modulo the size. No chip has the size 0; modulo 0 an address stays what it is.
fn wrapped(address: u16, size: u16) -> u16
    ensures { result ≡ address % size }
{
    address.checked_rem(size).unwrap_or(address)
}

fn after_short(mut marks: Marks) -> Marks
    ensures { result ≡ after_short marks }
{
    marks.tallies.short = marks.tallies.short.wrapping_add(1);
    marks
}

fn after_program(mut marks: Marks, size: u16, place: u16) -> Marks
    ensures { result ≡ after_program size place marks }
{
    let place = wrapped(place, size);
    let same = place == wrapped(marks.turn.place, size);
    marks.tallies.program = marks.tallies.program.wrapping_add(1);
    marks.turn.place = place;
    marks.turn.length = if same {
        marks.turn.length.saturating_add(1)
    } else {
        1
    };
    marks.turn.longest = marks.turn.longest.max(marks.turn.length);
    marks.run.length = 0;
    marks
}

fn after_erase(mut marks: Marks, zeroed: bool) -> Marks
    ensures { result ≡ after_erase zeroed marks }
{
    if marks.run.length == 0 && !zeroed {
        marks.tallies.hard = marks.tallies.hard.wrapping_add(1);
    }
    marks.tallies.erase = marks.tallies.erase.wrapping_add(1);
    marks.turn.length = 0;
    marks.run.length = marks.run.length.saturating_add(1);
    marks.run.longest = marks.run.longest.max(marks.run.length);
    marks
}

// The mode that a byte gives at a place where no setup awaits its second byte.
fn commanded(place: u16, byte: u8, verifying: Mode) -> Mode
    ensures { (n a : ℕ) → place ≡ a % n → result ≡ commanded n a byte verifying }
{
    match Command::try_from(byte) {
        Ok(Command::Read) => Mode::Read,
        Ok(Command::Sign) => Mode::Sign,
        Ok(Command::Erase) => Mode::EraseSetup,
        Ok(Command::Program) => Mode::ProgramSetup,
        Ok(Command::EraseVerify) => Mode::EraseVerify { place, time: 0 },
        Ok(Command::ProgramVerify) => verifying,
        Ok(Command::Reset) | Err(_) => Mode::Idle,
    }
}

// An arm for each mode that has a time: in one pattern, as alternatives, the proof loses which of them it was.
fn let_pass(mode: &mut Mode, micros: u16)
    ensures { mode.new ≡ timed micros mode.old }
{
    match mode {
        Mode::Programming { time, .. } => *time = time.saturating_add(micros),
        Mode::ProgramVerify { time, .. } => *time = time.saturating_add(micros),
        Mode::Erasing { time } => *time = time.saturating_add(micros),
        Mode::EraseVerify { time, .. } => *time = time.saturating_add(micros),
        _ => {}
    }
}

impl CommandRegister {
    pub fn new() -> CommandRegister
        ensures { kept result ≡ fresh }
    {
        CommandRegister::default()
    }

    // The pulse that may be open ends.
    pub fn pulse_ended(self, size: u16, zeroed: bool) -> CommandRegister
        ensures { kept result ≡ pulse_ended size zeroed (kept self) }
    {
        let marks = match self.mode {
            Mode::Programming { time, .. } if time < PROGRAM_PULSE => after_short(self.marks),
            Mode::Programming { place, .. } => after_program(self.marks, size, place),
            Mode::Erasing { time } if time < ERASE_PULSE => after_short(self.marks),
            Mode::Erasing { .. } => after_erase(self.marks, zeroed),
            _ => self.marks,
        };
        CommandRegister { marks, ..self }
    }

    fn resets(self, byte: u8) -> bool
        ensures { result ≡ resets self.mode byte }
    {
        match self.mode {
            Mode::ProgramSetup | Mode::EraseSetup => false,
            _ => matches!(Command::try_from(byte), Ok(Command::Reset)),
        }
    }

    fn chosen(self, at: u16, byte: u8) -> Mode
        ensures { (n a : ℕ) → at ≡ a % n → result ≡ chosen n a byte self.mode }
    {
        match self.mode {
            Mode::ProgramSetup => Mode::Programming {
                place: at,
                byte,
                time: 0,
            },
            Mode::EraseSetup => match Command::try_from(byte) {
                Ok(Command::Erase) => Mode::Erasing { time: 0 },
                _ => Mode::Idle,
            },
            Mode::Programming { place, .. } => {
                commanded(at, byte, Mode::ProgramVerify { place, time: 0 })
            }
            _ => commanded(at, byte, Mode::Idle),
        }
    }

    // A byte is written at high voltage, after the pulse that was open.
    pub fn told(mut self, size: u16, address: u16, byte: u8) -> CommandRegister
        ensures { kept result ≡ told size address byte (kept self) }
    {
        if self.resets(byte) {
            self.marks.turn.length = 0;
        }
        self.mode = self.chosen(wrapped(address, size), byte);
        self
    }

    // The voltage is set, after the pulse that was open.
    pub fn powered(mut self, voltage: Voltage) -> CommandRegister
        ensures { kept result ≡ powered voltage (kept self) }
    {
        self.voltage = voltage;
        self.mode = Mode::Read;
        self
    }

    // Time passes, whatever the size and the cells are.
    pub fn waited(mut self, micros: u16) -> CommandRegister
        ensures { kept result ≡ after 0 true (wait micros) (kept self) }
    {
        let_pass(&mut self.mode, micros);
        self
    }
}
