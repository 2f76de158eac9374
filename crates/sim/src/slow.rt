// A chip whose places give way only after some strikes.
ghost use Rattle.std.specs.Prelude.{◌≡◌};
ghost use Rattle.places.specs.Cells.{cells};
ghost use Rattle.sim.specs.Making.{Made};
ghost use Rattle.sim.specs.Trials.{Works, state, meant, size_of, next, pulsed, Says};
ghost use Rattle.sim.specs.TrialsLemmas.{places_nested, state_lawful, state_ordered, state_sized};

use chip::timing::SETTLING;
use chip::{Chip, Code, Mode, Signature, Voltage};
use places::{Place, PlaceTable, chip_size};
use socket::{CommandRegister, FLOATING, NO_CODE, SOCKET_SIZE};

// A chip with the places of a table. A table whose length is no size of a chip makes an empty socket.
// Clauses name what it holds by `state`: a view would need the bound on `T` here, and ask it of every user of the type.
#[derive(Debug, Drop)]
pub struct TableChip<T> {
    pub table: T,
    pub signature: Signature,
    pub register: CommandRegister,
}

// A slow chip over a table that the caller lends.
pub type SlowChip<'a> = TableChip<&'a mut [Place]>;

impl<T: PlaceTable> TableChip<T> {
    // A chip of the table's places, all bytes FFh, with low voltage and no marks. The table keeps its delays.
    #[tactic(auto, using(crate::proofs::Makings::making))]
    pub fn new(table: T, signature: Signature) -> TableChip<T>
        ensures made { Made (cells (T.PlaceTable.places table)) signature.maker signature.device (state T.PlaceTable.places result) }
        ensures lender { T.PlaceTable.lender result.table ≡ T.PlaceTable.lender table }
    {
        let mut chip = TableChip {
            table,
            signature,
            register: CommandRegister::new(),
        };
        if chip.working_size().is_some() {
            chip.table.refresh();
        }
        chip
    }

    #[tactic(auto, using(crate::proofs::Works::works))]
    fn working_size(&self) -> Option<u16>
        ensures { Works (cells (T.PlaceTable.places self.now.table)) result }
    {
        chip_size(self.table.count())
    }

    // The pulse that may be open ends: it strikes, and leaves its mark.
    fn end_pulse(&mut self)
        ensures pulsed { state T.PlaceTable.places self.new ≡ pulsed (state T.PlaceTable.places self.old) }
        ensures lender { T.PlaceTable.lender self.new.table ≡ T.PlaceTable.lender self.old.table }
    {
        let Some(size) = self.working_size() else {
            self.register = self.register.pulse_ended(SOCKET_SIZE, false);
            return;
        };
        match self.register.mode {
            Mode::Programming { place, byte, .. } => {
                self.table.program(usize::from(place % size), byte);
                self.register = self.register.pulse_ended(size, false);
            }
            Mode::Erasing { .. } => {
                let zeroed = self.table.zeroed();
                self.table.erase();
                self.register = self.register.pulse_ended(size, zeroed);
            }
            _ => {}
        }
    }
}

impl<T: PlaceTable> Chip for TableChip<T> {
    ghost meaning = { λ s. meant (state T.PlaceTable.places s) };

    ghost takes = { λ s c t. (state T.PlaceTable.places t ≡ next c (state T.PlaceTable.places s)) × Says (state T.PlaceTable.places s) c × (T.PlaceTable.lender t.table ≡ T.PlaceTable.lender s.table) };

    ghost lawful = { λ s c t h.
        let places = T.PlaceTable.places in
        state_lawful (state places s) c (state places t) (places_nested (places s.table)) (places_nested (places t.table)) h.0 h.1 };

    ghost ordered = { λ s. let places = T.PlaceTable.places in state_ordered (state places s) (places_nested (places s.table)) };

    ghost sized = { λ s. state_sized (state T.PlaceTable.places s) };

    fn size(&self) -> u16 {
        self.working_size().unwrap_or(SOCKET_SIZE)
    }

    fn write_cycle(&mut self, address: u16, byte: u8) {
        if self.register.voltage == Voltage::High {
            let size = self.size();
            self.end_pulse();
            self.register = self.register.told(size, address, byte);
        }
    }

    fn read_cycle(&mut self, address: u16) -> u8 {
        let Some(size) = self.working_size() else {
            return FLOATING;
        };
        let mode = self.register.mode;
        let place_at = |address: u16| self.table.place(usize::from(address % size));
        match mode {
            Mode::Read => place_at(address).read,
            Mode::ProgramVerify { place, time } if time >= SETTLING => place_at(place).program,
            Mode::EraseVerify { place, time } if time >= SETTLING => place_at(place).erase,
            _ => FLOATING,
        }
    }

    fn signature_cycle(&mut self, code: Code) -> u8 {
        match self.register.mode {
            Mode::Sign if self.working_size().is_some() => self.signature.byte(code),
            _ => NO_CODE,
        }
    }

    fn wait(&mut self, micros: u16) {
        self.register = self.register.waited(micros);
    }

    fn set_voltage(&mut self, voltage: Voltage) {
        self.end_pulse();
        self.register = self.register.powered(voltage);
    }
}
