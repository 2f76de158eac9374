// What strikes make of a place.
ghost use Rattle.std.specs.Prelude.{◌≡◌, ◌≤◌, ◌<◌, ◌↔◌, IsTrue};
ghost use Rattle.places.specs.Cells.{cell, made_cell, more, refreshed, programmed, erased};
ghost use Rattle.places.specs.Delays.{GivesWay};

use crate::place::{Place, Strikes};

const FULL: u8 = 0xFF;

impl Strikes {
    fn add_one(&mut self)
        ensures count { self.new.count ≡ more self.old.count }
        ensures delay { self.new.delay ≡ self.old.delay }
    {
        self.count = self.count.saturating_add(1);
    }

    fn reached(self) -> bool
        ensures { IsTrue result ↔ (self.delay ≤ self.count) }
    {
        self.count >= self.delay
    }

    fn passed(self) -> bool
        ensures { IsTrue result ↔ (self.delay < self.count) }
    {
        self.count > self.delay
    }
}

impl Place {
    // A new place, which gives way to each kind of strike after so many of them.
    #[tactic(auto, using(crate::proofs::Delaying::gives_way))]
    pub fn new(program_delay: u16, erase_delay: u16) -> Place
        ensures made { cell result ≡ made_cell program_delay erase_delay }
        ensures delays { GivesWay (cell result) }
    {
        Place {
            erase: FULL,
            read: FULL,
            program: FULL,
            program_strikes: Strikes {
                delay: program_delay,
                count: 0,
            },
            erase_strikes: Strikes {
                delay: erase_delay,
                count: 0,
            },
        }
    }

    pub(crate) fn refresh(&mut self)
        ensures { cell self.new ≡ refreshed (cell self.old) }
    {
        *self = Place::new(self.program_strikes.delay, self.erase_strikes.delay);
    }

    #[tactic(auto, using(crate::proofs::Striking::striking))]
    pub(crate) fn program_strike(&mut self, byte: u8)
        ensures { cell self.new ≡ programmed byte (cell self.old) }
    {
        self.erase_strikes.count = 0;
        self.program_strikes.add_one();
        if self.program_strikes.reached() {
            self.erase &= byte;
            self.read &= byte;
        }
        if self.program_strikes.passed() {
            self.program &= byte;
        }
    }

    // No function in common with the other kind: other margins follow late, and bits are set and not cleared.
    #[tactic(auto, using(crate::proofs::Striking::striking))]
    pub(crate) fn erase_strike(&mut self)
        ensures { cell self.new ≡ erased (cell self.old) }
    {
        self.program_strikes.count = 0;
        self.erase_strikes.add_one();
        if self.erase_strikes.reached() {
            self.program = FULL;
            self.read = FULL;
        }
        if self.erase_strikes.passed() {
            self.erase = FULL;
        }
    }
}
