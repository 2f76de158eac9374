// How many places a chip has, and what every run of cycles on it keeps.
ghost use Rattle.std.specs.Prelude.{◌≡◌};
ghost use Rattle.chip.specs.Laws.{Keeps};
ghost use Rattle.chip.specs.Rules.{Sized, Ordered};

use crate::bus::Chip;

// A function of its own: on `capacity` itself what runs keep is not found without a proof by hand, and that would be what
// refuses an edit of it.
fn places<C: Chip>(chip: &C) -> u16
    ensures places { result ≡ (C.Chip.meaning chip.now).size }
    ensures sized { Sized (C.Chip.meaning chip.now).size }
    ensures ordered { Ordered (C.Chip.meaning chip.now) }
    ensures keeps { Keeps C.Chip.takes C.Chip.meaning chip.now }
{
    chip.size()
}

// The number of places. With it comes what holds of every run of cycles from here on.
pub fn capacity<C: Chip>(chip: &C) -> usize
    ensures places { result ≡ (C.Chip.meaning chip.now).size }
    ensures sized { Sized (C.Chip.meaning chip.now).size }
    ensures ordered { Ordered (C.Chip.meaning chip.now) }
    ensures keeps { Keeps C.Chip.takes C.Chip.meaning chip.now }
{
    usize::from(places(chip))
}
