ghost use Rattle.std.specs.Prelude.{◌≡◌, ◌+◌, ◌^◌, ◌<◌, length, MatchOption};
ghost use Rattle.ihex.specs.Pairing.{Paired};
ghost use Rattle.ihex.specs.Steps.{Headed, Unpaired, LineRead};

use crate::fault::{HexFault, Reason, Spot};
use crate::pairs::Pairs;
use hextext::digit_run;

// What a line says: bytes for a place, as the digits that write them, or that the text ends.
#[derive(Clone, Copy, Debug, PartialEq)]
pub enum Record<'a> {
    Data { place: u16, pairs: Pairs<'a> },
    End,
}

// The types of a line.
const DATA: u8 = 0;

const END: u8 = 1;

// What stands before the data of a line. The type is a number until `read_record` has judged the rules that come before
// it, and becomes a `Record` there, in the one match on it.
#[derive(Clone, Copy)]
struct Header {
    count: u8,
    place: u16,
    kind: u8,
}

impl Header {
    // The header at the front of a line's pairs, and the pairs after it.
    fn split(pairs: Pairs<'_>) -> Option<(Header, Pairs<'_>)>
        ensures { MatchOption result (length pairs.entry.digits.now < 8) (λ p. Headed pairs.entry.digits.now p.0 p.1.digits.now) }
    {
        let (count, rest) = pairs.split_first()?;
        let (high, rest) = rest.split_first()?;
        let (low, rest) = rest.split_first()?;
        let (kind, rest) = rest.split_first()?;
        let place = u16::from_be_bytes([high, low]);
        Some((Header { count, place, kind }, rest))
    }
}

// Which rule digits break that are not pairs of digits throughout, in a line that stands at `spot`.
fn unpaired(digits: &[u8], spot: Spot) -> HexFault
    requires unpaired { Paired digits.now → ⊥ }
    requires fits { spot.position + length digits.now + 1 < 2 ^ 64 }
    ensures { Unpaired digits.now spot.line spot.position result }
{
    let run = digit_run(digits);
    if run == digits.len() {
        return spot.refused(Reason::WrongLength);
    }
    let stray = Spot {
        position: spot.position + 1 + run,
        ..spot
    };
    stray.refused(Reason::NotADigit)
}

// Reads a line, given without its end, that stands at `spot`.
pub(crate) fn read_record(line: &[u8], spot: Spot) -> Result<Record<'_>, HexFault>
    requires { spot.position + length line.now < 2 ^ 64 }
    ensures { LineRead line.now spot.line spot.position result }
{
    let [b':', digits @ ..] = line else {
        return Err(spot.refused(Reason::MissingColon));
    };
    let Some((pairs, sum)) = Pairs::summed(digits) else {
        return Err(unpaired(digits, spot));
    };
    let Some((header, body)) = Header::split(pairs) else {
        return Err(spot.refused(Reason::WrongLength));
    };
    let count = usize::from(header.count);
    if body.len() != count + 1 {
        return Err(spot.refused(Reason::WrongLength));
    }
    if sum != 0 {
        return Err(spot.refused(Reason::WrongSum));
    }
    match header.kind {
        DATA => Ok(Record::Data {
            place: header.place,
            pairs: body.first(count),
        }),
        END if count == 0 => Ok(Record::End),
        _ => Err(spot.refused(Reason::UnknownType)),
    }
}
