// The bus of a chip.
ghost use Rattle.std.specs.Prelude.{◌≡◌};
ghost use Rattle.chip.specs.Rules.{Cycle, Meaning, Step, Sized, Ordered, write, read, sign, wait, supply};

use crate::state::{Code, Voltage};

// A chip, whatever it is made of. None of the six operations refuses.
pub trait Chip {
    // what the rules speak of
    ghost meaning: { Self → Meaning };

    // the cycles that this chip takes: `takes s c t`, it was s, took c, and is now t
    ghost takes: { Self → Cycle → Self → Type 0 };

    // the number of places
    fn size(&self) -> u16
        ensures { result ≡ (meaning self.now).size };

    fn write_cycle(&mut self, address: u16, byte: u8)
        ensures { takes self.old (write address byte) self.new };

    fn read_cycle(&mut self, address: u16) -> u8
        ensures { takes self.old (read address result) self.new };

    fn signature_cycle(&mut self, code: Code) -> u8
        ensures { takes self.old (sign code result) self.new };

    fn wait(&mut self, micros: u16)
        ensures { takes self.old (wait micros) self.new };

    fn set_voltage(&mut self, voltage: Voltage)
        ensures { takes self.old (supply voltage) self.new };

    ghost lawful: { (s : Self) (c : Cycle) (t : Self) → takes s c t → Step (meaning s) c (meaning t) };

    ghost ordered: { (s : Self) → Ordered (meaning s) };

    ghost sized: { (s : Self) → Sized (meaning s).size };
}
