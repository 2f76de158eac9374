// A chip behind crossed address lines.
ghost use Rattle.std.specs.Prelude.{◌≡◌};
ghost use Rattle.carrier.specs.Crossing.{across, crossed, seen};
ghost use Rattle.carrier.specs.Crossings.{seen_lawful, seen_ordered};
ghost use Rattle.std.proofs.Common.{rules};

use crate::crossing::{Crossing, Mirror};
use chip::{Chip, Code, Voltage};

// A chip in a carrier. The carrier's place a is the chip's place where the crossing takes a.
#[derive(Debug, Drop)]
pub struct Carrier<C, X> {
    pub chip: C,
    pub crossing: X,
}

pub type MirrorCarrier<C> = Carrier<C, Mirror>;

impl<C: Chip, X: Crossing> Carrier<C, X> {
    // the chip's address for an address of the carrier
    #[tactic(auto, using(chip::proofs::Sizes::sized_pos))]
    fn below(&self, address: u16) -> u16
        ensures { result ≡ across (X.Crossing.there self.now.crossing) (C.Chip.meaning self.now.chip).size address }
    {
        let size = self.size();
        self.crossing.below(size, address % size)
    }
}

impl<C: Chip, X: Crossing> Chip for Carrier<C, X> {
    ghost meaning = { λ s. seen (X.Crossing.there s.crossing) (X.Crossing.back s.crossing) (C.Chip.meaning s.chip) };

    ghost takes = { λ s c t. C.Chip.takes s.chip (crossed (X.Crossing.there s.crossing) (C.Chip.meaning s.chip).size c) t.chip × (t.crossing ≡ s.crossing) };

    ghost lawful = { λ s c t h.
        let z = C.Chip.sized s.chip in
        let x = X.Crossing.crosses s.crossing (C.Chip.meaning s.chip).size z in
        rw h.1 (seen_lawful (X.Crossing.there s.crossing) (X.Crossing.back s.crossing) (C.Chip.meaning s.chip) c (C.Chip.meaning t.chip) z x (C.Chip.lawful s.chip _ t.chip h.0)) };

    ghost ordered = { λ s.
        let z = C.Chip.sized s.chip in
        let x = X.Crossing.crosses s.crossing (C.Chip.meaning s.chip).size z in
        seen_ordered (X.Crossing.there s.crossing) (X.Crossing.back s.crossing) (C.Chip.meaning s.chip) x (C.Chip.ordered s.chip) };

    ghost sized = { Prim.search rules };

    fn size(&self) -> u16 {
        self.chip.size()
    }

    fn write_cycle(&mut self, address: u16, byte: u8) {
        let below = self.below(address);
        self.chip.write_cycle(below, byte);
    }

    fn read_cycle(&mut self, address: u16) -> u8 {
        let below = self.below(address);
        self.chip.read_cycle(below)
    }

    fn signature_cycle(&mut self, code: Code) -> u8 {
        self.chip.signature_cycle(code)
    }

    fn wait(&mut self, micros: u16) {
        self.chip.wait(micros);
    }

    fn set_voltage(&mut self, voltage: Voltage) {
        self.chip.set_voltage(voltage);
    }
}
