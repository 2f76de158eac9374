// The check before a chip is made of a table.
ghost use Rattle.std.specs.Prelude.{◌≡◌, length, Some};
ghost use Rattle.places.specs.Lengths.{number, verdict, Checked, sentence};

use crate::place::Place;
use crate::sizes::chip_size;
use std::error::Error;
use std::fmt;

// Why a table makes no chip.
#[derive(Clone, Copy, Debug, PartialEq)]
pub enum TableFault {
    // no chip has so many places: a power of two from 2 to 32,768 is asked
    Length(usize),
}

const NO_SIZE: u8 = 11;

impl TableFault {
    // the number by which docs/CHIP.md tells the refusal: each refusal has one, and keeps it
    pub fn number(self) -> u8
        ensures { result ≡ number self }
    {
        match self {
            TableFault::Length(_) => NO_SIZE,
        }
    }
}

impl fmt::Display for TableFault {
    ghost output = { λ fault. Some (sentence fault) };

    fn fmt<W: fmt::Write>(&self, f: &mut fmt::Formatter<W>) -> fmt::Result {
        match self {
            TableFault::Length(places) => write!(
                f,
                "no chip has {places} places: a power of two from 2 to 32,768 is asked"
            ),
        }
    }
}

impl Error for TableFault {}

pub fn check_table(table: &[Place]) -> Result<(), TableFault>
    ensures { Checked (length table.now) (verdict result) }
{
    chip_size(table.len()).ok_or(TableFault::Length(table.len()))?;
    Ok(())
}
