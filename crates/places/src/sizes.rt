// The lengths of a table that make a chip.
ghost use Rattle.places.specs.Lengths.{Measured};

// The size of a chip of so many places, if there may be one: the largest power of two in a `u16` is the largest size.
#[tactic(auto, using(crate::proofs::Lengths::measuring))]
pub fn chip_size(places: usize) -> Option<u16>
    ensures { Measured places result }
{
    let size = u16::try_from(places).ok()?;
    (size > 1 && size.is_power_of_two()).then_some(size)
}
