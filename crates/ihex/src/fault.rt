ghost use Rattle.std.specs.Prelude.{◌≡◌, Some};
ghost use Rattle.ihex.specs.Faults.{refusal_number, fault_at};
ghost use Rattle.ihex.specs.Sentences.{sentence_of, fault_text};

use std::error::Error;
use std::fmt;

// Why a text is refused. Each reason stands for its refusal's number.
#[derive(Clone, Copy, Debug, PartialEq)]
pub enum Reason {
    MissingColon = 30,
    NotADigit = 31,
    WrongLength = 32,
    WrongSum = 33,
    UnknownType = 34,
    OutOfRange = 35,
    OutOfOrder = 36,
    MissingEnd = 37,
    AfterEnd = 38,
    TooLong = 39,
}

impl Reason {
    // The refusal's number.
    pub fn number(self) -> u8
        ensures { result ≡ refusal_number self }
    {
        self as u8
    }
}

// What is wrong.
impl fmt::Display for Reason {
    ghost output = { λ r. Some (sentence_of r) };

    fn fmt<W: fmt::Write>(&self, f: &mut fmt::Formatter<W>) -> fmt::Result {
        f.write_str(match self {
            Reason::MissingColon => "the line does not begin with a colon",
            Reason::NotADigit => "this byte is not a hexadecimal digit",
            Reason::WrongLength =>
                "the line has fewer than 10 digits, or not 10 and 2 for each byte that it counts",
            Reason::WrongSum => "the bytes of the line do not add up to 0 modulo 256",
            Reason::UnknownType =>
                "the type is neither 00 (data) nor 01 (end), or an end line counts bytes",
            Reason::OutOfRange => "the data reaches past the end of the image",
            Reason::OutOfOrder => "the data begins below the end of the data line before it",
            Reason::MissingEnd => "the text stops without an end line",
            Reason::AfterEnd => "bytes follow the end line",
            Reason::TooLong => "the text is longer than 1048576 bytes, or the image than 32768",
        })
    }
}

// A refusal: why, in which line, counted from 1, and at which byte of the text, counted from 0.
#[derive(Clone, Copy, Debug, PartialEq)]
pub struct HexFault {
    pub reason: Reason,
    pub line: usize,
    pub position: usize,
}

// One sentence that names the number, the line and the position.
impl fmt::Display for HexFault {
    ghost output = { λ e. Some (fault_text e) };

    fn fmt<W: fmt::Write>(&self, f: &mut fmt::Formatter<W>) -> fmt::Result {
        let reason = self.reason;
        let number = reason.number();
        let line = self.line;
        let position = self.position;
        write!(
            f,
            "refusal {number} at line {line}, position {position}: {reason}"
        )
    }
}

impl Error for HexFault {}

// Where a line stands: its number, counted from 1, and the position of its first byte, counted from 0.
#[derive(Clone, Copy)]
pub(crate) struct Spot {
    pub line: usize,
    pub position: usize,
}

impl Spot {
    // The refusal that names it.
    pub(crate) fn refused(self, reason: Reason) -> HexFault
        ensures { result ≡ fault_at reason self.line self.position }
    {
        HexFault {
            reason,
            line: self.line,
            position: self.position,
        }
    }
}
