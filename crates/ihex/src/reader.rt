ghost use Rattle.std.specs.Prelude.{◌≡◌, ◌+◌, ◌≤◌};
ghost use Rattle.hextext.specs.Lines.{start};
ghost use Rattle.ihex.specs.Reads.{Next, Moves};
ghost use Rattle.ihex.specs.Steps.{Current};

use crate::fault::{HexFault, Spot};
use crate::record::{Record, read_record};
use hextext::split_line;

// Gives the records of a text one by one. `line` counts the lines that are read, and `position` is where the next one
// starts, or the text's length.
#[derive(Debug, Drop)]
pub struct Reader<'a> {
    pub(crate) text: &'a [u8],
    pub(crate) line: usize,
    pub(crate) position: usize,
    ghost counted: { line ≤ position },
    ghost at: { position ≡ start text.now line },
}

impl<'a> Reader<'a> {
    // A reader at the start of a text.
    pub fn new(text: &'a [u8]) -> Reader<'a>
        ensures text { result.text ≡ text.entry }
        ensures line { result.line ≡ 0 }
        ensures position { result.position ≡ 0 }
    {
        Reader {
            text,
            line: 0,
            position: 0,
        }
    }

    // Where the next line stands.
    pub(crate) fn spot(&self) -> Spot
        ensures line { result.line ≡ self.now.line + 1 }
        ensures position { result.position ≡ self.now.position }
    {
        Spot {
            line: self.line + 1,
            position: self.position,
        }
    }

    // The record of the next line, and the position after it.
    fn current(&self) -> Result<Option<(Record<'a>, usize)>, HexFault>
        ensures { Current self.now.text.now self.now.line result }
    {
        let left = &self.text[self.position..];
        if left.is_empty() {
            return Ok(None);
        }
        let (line, rest) = split_line(left);
        let record = read_record(line, self.spot())?;
        Ok(Some((record, self.text.len() - rest.len())))
    }

    // The next record; none once the lines have run out.
    pub fn next(&mut self) -> Result<Option<Record<'a>>, HexFault>
        ensures answer { Next self.old.text.now self.old.line result }
        ensures same { self.new.text ≡ self.old.text }
        ensures moves { Moves self.old.line result self.new.line }
        ensures stands { self.new.position ≡ start self.new.text.now self.new.line }
    {
        let Some((record, position)) = self.current()? else {
            return Ok(None);
        };
        self.position = position;
        self.line += 1;
        Ok(Some(record))
    }
}
