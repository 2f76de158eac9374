// Words for people: what was found in a profile.
#![tactic(auto)]

ghost use Rattle.std.specs.Prelude.{◌≡◌, Some, IfOk, string_bytes};
ghost use Rattle.report.specs.Words.{four_digits, report_text};

use ihex::{HexFault, Span, Survey};
use std::alloc::{AllocError, Global};
use std::fmt;

// A place, in four digits.
#[derive(Clone, Copy)]
struct Address(u16);

impl fmt::Display for Address {
    ghost output = { λ address. Some (four_digits address.0) };

    #[tactic(auto, using(crate::proofs::Hex::placed))]
    fn fmt<W: fmt::Write>(&self, f: &mut fmt::Formatter<W>) -> fmt::Result {
        let place = self.0;
        write!(f, "{place:04X}")
    }
}

// A record of the reading of a text, a fact to a line, each a label and a value.
#[derive(Clone, Copy, Debug, PartialEq)]
pub struct Findings(pub Result<Survey, HexFault>);

impl fmt::Display for Findings {
    ghost output = { λ findings. Some (report_text findings.0) };

    fn fmt<W: fmt::Write>(&self, f: &mut fmt::Formatter<W>) -> fmt::Result {
        match self.0 {
            Ok(survey) => {
                let Survey {
                    records,
                    bytes,
                    span,
                } = survey;
                match span {
                    Some(Span { lowest, highest }) => {
                        let lowest = Address(lowest);
                        let highest = Address(highest);
                        write!(
                            f,
                            "verdict: accepted\nrecords: {records}\nbytes: {bytes}\nlowest: {lowest}\nhighest: {highest}\n"
                        )
                    }
                    None => write!(
                        f,
                        "verdict: accepted\nrecords: {records}\nbytes: {bytes}\nlowest: none\nhighest: none\n"
                    ),
                }
            }
            Err(fault) => {
                let HexFault {
                    reason,
                    line,
                    position,
                } = fault;
                let number = reason.number();
                write!(
                    f,
                    "verdict: refused\nnumber: {number}\nline: {line}\nposition: {position}\nreason: {reason}\n"
                )
            }
        }
    }
}

// The same as a text of its own.
pub fn report(alloc: Global, answer: Result<Survey, HexFault>) -> Result<String, AllocError>
    ensures { IfOk result (λ s. string_bytes s ≡ report_text answer) }
{
    Findings(answer).to_string(alloc)
}

#[cfg(test)]
mod tests {
    use super::*;
    use ihex::Reason;
    use std::test::Fail;

    #[test]
    fn tells_what_was_found(rt: HostRuntime) -> Result<(), Fail> {
        let span = Some(Span {
            lowest: 0x10,
            highest: 0x7fae,
        });
        let page = report(
            rt.alloc(),
            Ok(Survey {
                records: 12,
                bytes: 180,
                span,
            }),
        )?;
        assert_eq!(rt;
            page.as_str(),
            "verdict: accepted\nrecords: 12\nbytes: 180\nlowest: 0010\nhighest: 7FAE\n"
        );
        let page = report(
            rt.alloc(),
            Ok(Survey {
                records: 0,
                bytes: 0,
                span: None,
            }),
        )?;
        assert_eq!(rt;
            page.as_str(),
            "verdict: accepted\nrecords: 0\nbytes: 0\nlowest: none\nhighest: none\n"
        );
        Ok(())
    }

    #[test]
    fn tells_why_a_text_is_refused(rt: HostRuntime) -> Result<(), Fail> {
        let fault = HexFault {
            reason: Reason::WrongSum,
            line: 17,
            position: 1048,
        };
        let page = report(rt.alloc(), Err(fault))?;
        assert_eq!(rt;
            page.as_str(),
            "verdict: refused\nnumber: 33\nline: 17\nposition: 1048\nreason: the bytes of the line do not add up to 0 modulo 256\n"
        );
        Ok(())
    }
}
