// One place of a slow chip.
ghost use Rattle.std.specs.Prelude.{◌<◌};
ghost use Rattle.chip.specs.Rules.{Within};

// One kind of strike at a place: how many it puts up with, and how many there were since the last of the other kind.
#[derive(Clone, Copy, Debug, PartialEq)]
pub struct Strikes {
    pub delay: u16,
    pub count: u16,
}

// Eight cells under erase margin, in ordinary reading and under program margin. They give way
// to a kind of strike once its count reaches its delay, and wholly once it is past it.
// A strike of one kind adds to its own count and makes the other 0. The order is a fact of each place and
// of no view of it: the laws of a chip read it off whatever table of places there is.
#[derive(Clone, Copy, Debug, PartialEq)]
pub struct Place {
    pub erase: u8,
    pub read: u8,
    pub program: u8,
    pub program_strikes: Strikes,
    pub erase_strikes: Strikes,
    ghost inner: { Within erase read },
    ghost outer: { Within read program },
    ghost bytes: { (erase < 256) × (read < 256) × (program < 256) },
}
