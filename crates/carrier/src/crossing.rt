// Ways to cross the address lines.
ghost use Rattle.std.specs.Prelude.{◌≡◌, ℕ, ◌-◌};
ghost use Rattle.chip.specs.Rules.{Sized};
ghost use Rattle.carrier.specs.Crossing.{Crosses};
ghost use Rattle.std.proofs.Common.{rules};

// Takes the places of a carrier to places of the chip below it, one to one.
pub trait Crossing {
    // where place a of the carrier lies below, in a chip of n places: `there x n a`
    ghost there: { Self → ℕ → ℕ → ℕ };

    // where place p below lies in the carrier: `back x n p`
    ghost back: { Self → ℕ → ℕ → ℕ };

    fn below(&self, size: u16, place: u16) -> u16
        ensures { result ≡ there self.now size place };

    ghost crosses: { (x : Self) (n : ℕ) → Sized n → Crosses (there x n) (back x n) n };
}

// Turns the places round: the first lies last, the last first.
#[derive(Clone, Copy, PartialEq, Debug)]
pub struct Mirror;

impl Crossing for Mirror {
    ghost there = { λ _ n a. n - 1 - a };

    ghost back = { λ _ n p. n - 1 - p };

    ghost crosses = { Prim.search rules };

    fn below(&self, size: u16, place: u16) -> u16 {
        size.saturating_sub(1).saturating_sub(place)
    }
}
