// A table of places, however it is held.
ghost use Rattle.std.specs.Prelude.{◌≡◌, ℕ, List, map, length, slice_index_or, slice_set, ◌==◌};
ghost use Rattle.std.specs.List.{list_all};
ghost use Rattle.std.specs.Borrow.{MutBor};
ghost use Rattle.places.specs.declared.place.Place.{Place};
ghost use Rattle.places.specs.Cells.{Cell, beyond, cell, cells, refreshed, programmed, erased, zeroed};

use crate::place::Place;

pub trait PlaceTable {
    // the places themselves and not their cells: with them comes the order that each keeps
    ghost places: { Self → List Place };

    // who lent the table, and has it back as it is left; each change says that it is the same, since an invariant cannot
    // tie two moments
    ghost lender: { Self → ℕ };

    fn count(&self) -> usize
        ensures { result ≡ length (places self.now) };

    // a place beyond the table is as a new one
    fn place(&self, at: usize) -> Place
        ensures { cell result ≡ slice_index_or (cells (places self.now)) at beyond };

    // all bytes FFh, all counts 0
    fn refresh(&mut self)
        ensures refreshed { cells (places self.new) ≡ map refreshed (cells (places self.old)) }
        ensures lender { lender self.new ≡ lender self.old };

    fn program(&mut self, at: usize, byte: u8)
        ensures programmed { cells (places self.new) ≡ slice_set (cells (places self.old)) at (programmed byte (slice_index_or (cells (places self.old)) at beyond)) }
        ensures lender { lender self.new ≡ lender self.old };

    fn erase(&mut self)
        ensures erased { cells (places self.new) ≡ map erased (cells (places self.old)) }
        ensures lender { lender self.new ≡ lender self.old };

    // is every place at zero under program margin?
    fn zeroed(&self) -> bool
        ensures { result ≡ zeroed (cells (places self.now)) };
}

// Changes each place by `change`: a loop, since of what the closure of a `for_each` changed a proof knows nothing.
fn change_all<F: Fn(&mut Place)>(table: &mut [Place], change: F)
    requires { F.IsAlwaysCallable change }
    ensures { (f : Cell → Cell) → ((p q : MutBor Place) → F.post change p tt q → cell q.now ≡ f (cell p.now)) → cells table.new ≡ map f (cells table.old) }
{
    'places: for place in table.iter_mut() {
        change(place);
    }
}

// Told of the places and not of their cells, and apart from `zeroed`: in the method itself the chain leaves its goal open.
fn all_zeroed(table: &[Place]) -> bool
    ensures { result ≡ list_all (λ (p : Place). p.program == 0) table.now }
{
    table.iter().all(|place| place.program == 0)
}

// A slice that the caller lends.
impl PlaceTable for &mut [Place] {
    ghost places = { λ s. s.now };

    ghost lender = { λ s. s.ghost_name };

    fn count(&self) -> usize {
        self.len()
    }

    fn place(&self, at: usize) -> Place {
        self.get(at).copied().unwrap_or(Place::new(0, 0))
    }

    fn refresh(&mut self) {
        change_all(self, |place| place.refresh());
    }

    // By index: what `get_mut` lends a proof does not know afterwards.
    #[tactic(auto, using(crate::proofs::Tables::striking))]
    fn program(&mut self, at: usize, byte: u8) {
        if at < self.len() {
            self[at].program_strike(byte);
        }
    }

    fn erase(&mut self) {
        change_all(self, |place| place.erase_strike());
    }

    #[tactic(auto, using(crate::proofs::Tables::zeroed_cells))]
    fn zeroed(&self) -> bool {
        all_zeroed(self)
    }
}
