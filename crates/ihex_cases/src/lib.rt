// Worked examples of reading, as tests: every refusal with its line and position, and what the image then holds.
#![tactic(auto)]

#[cfg(test)]
mod tests {
    use ihex::{HexFault, MAX_IMAGE, MAX_TEXT, Reader, Reason, Record, Span, Survey, fill};
    use std::process::Abort;
    use std::test::Fail;

    // The text is accepted, and places 05h, 0Ah and FFh at 0010h, in an image of 32 places.
    fn places_three(rt: &impl Abort, text: &[u8]) {
        let mut image = [0u8; 32];
        let span = Some(Span {
            lowest: 0x10,
            highest: 0x12,
        });
        assert_eq!(rt;
            fill(text, &mut image),
            Ok(Survey {
                records: 1,
                bytes: 3,
                span,
            })
        );
        let mut expected = [0xffu8; 32];
        expected[0x10] = 0x05;
        expected[0x11] = 0x0a;
        assert_eq!(rt; image, expected);
    }

    // The text is refused, and leaves an image of 19 places FFh throughout.
    fn refused(rt: &impl Abort, text: &[u8], reason: Reason, line: usize, position: usize) {
        let mut image = [0u8; 19];
        assert_eq!(rt;
            fill(text, &mut image),
            Err(HexFault {
                reason,
                line,
                position,
            })
        );
        assert_eq!(rt; image, [0xff; 19]);
    }

    #[test]
    fn accepts_each_line_end_and_case(rt: HostRuntime) {
        places_three(&rt, b":03001000050AFFDF\n:00000001FF\n");
        places_three(&rt, b":03001000050AFFDF\r\n:00000001FF\r\n");
        places_three(&rt, b":03001000050AFFDF\n:00000001FF");
        places_three(&rt, b":03001000050affdf\n:00000001ff\n");
        places_three(&rt, b":03001000050aFFdF\r\n:00000001fF");
    }

    #[test]
    fn a_record_of_no_bytes_places_nothing(rt: HostRuntime) {
        let mut image = [0u8; 32];
        let empty = Survey {
            records: 2,
            bytes: 0,
            span: None,
        };
        assert_eq!(rt;
            fill(b":00001000F0\n:00002000E0\n:00000001FF", &mut image),
            Ok(empty)
        );
        assert_eq!(rt; image, [0xff; 32]);
        let beyond = HexFault {
            reason: Reason::OutOfRange,
            line: 1,
            position: 0,
        };
        assert_eq!(rt; fill(b":00002100DF\n:00000001FF", &mut image), Err(beyond));
        let none = Survey {
            records: 0,
            bytes: 0,
            span: None,
        };
        assert_eq!(rt; fill(b":00000001FF", &mut image[0..0]), Ok(none));
    }

    #[test]
    fn reaches_the_last_place_and_not_one_beyond(rt: HostRuntime) {
        let text = b":03001000050AFFDF\n:00000001FF";
        let mut image = [0u8; 19];
        let span = Some(Span {
            lowest: 0x10,
            highest: 0x12,
        });
        assert_eq!(rt;
            fill(text, &mut image),
            Ok(Survey {
                records: 1,
                bytes: 3,
                span,
            })
        );
        assert_eq!(rt; image[18], 0xff);
        assert_eq!(rt; image[17], 0x0a);
        let beyond = HexFault {
            reason: Reason::OutOfRange,
            line: 1,
            position: 0,
        };
        assert_eq!(rt; fill(text, &mut image[0..18]), Err(beyond));
        assert_eq!(rt; image[16], 0xff);
    }

    #[test]
    fn names_what_is_wrong_in_a_line(rt: HostRuntime) {
        refused(&rt, b"03001000050AFFDF\n", Reason::MissingColon, 1, 0);
        refused(&rt, b":00000000\x000\n", Reason::NotADigit, 1, 9);
        refused(&rt, b"\n:00000001FF", Reason::MissingColon, 1, 0);
        refused(
            &rt,
            b":00001000F0\n\r\n:00000001FF",
            Reason::MissingColon,
            2,
            12,
        );
        refused(
            &rt,
            b":00001000F0\r\n:03001000050AFFDG",
            Reason::NotADigit,
            2,
            29,
        );
        refused(&rt, b":00000001FF\r", Reason::NotADigit, 1, 11);
        refused(&rt, b":00000001FF\r\r\n", Reason::NotADigit, 1, 11);
        refused(&rt, b":", Reason::WrongLength, 1, 0);
        refused(&rt, b":00000001F\n", Reason::WrongLength, 1, 0);
        refused(&rt, b":00000001\n", Reason::WrongLength, 1, 0);
        refused(&rt, b":03001000050AFF\n", Reason::WrongLength, 1, 0);
        refused(&rt, b":03001000050AFFDFFF\n", Reason::WrongLength, 1, 0);
        refused(
            &rt,
            b":03001000050AFFDE\n:00000001FF\n",
            Reason::WrongSum,
            1,
            0,
        );
        refused(
            &rt,
            b":00000002FE\n:00000001FF\n",
            Reason::UnknownType,
            1,
            0,
        );
        refused(&rt, b":0100000100FE\n", Reason::UnknownType, 1, 0);
    }

    #[test]
    fn names_what_is_wrong_in_the_text(rt: HostRuntime) {
        refused(
            &rt,
            b":01001000AA45\n:01001300FFED\n:00000001FF\n",
            Reason::OutOfRange,
            2,
            14,
        );
        refused(
            &rt,
            b":01001000AA45\n:01000F0001EF\n:00000001FF\n",
            Reason::OutOfOrder,
            2,
            14,
        );
        refused(
            &rt,
            b":01001000AA45\n:01001000AA45\n:00000001FF\n",
            Reason::OutOfOrder,
            2,
            14,
        );
        refused(&rt, b"", Reason::MissingEnd, 1, 0);
        refused(&rt, b":01001000AA45\n", Reason::MissingEnd, 2, 14);
        refused(&rt, b":01001000AA45", Reason::MissingEnd, 2, 13);
        refused(&rt, b":00000001FF\n\n", Reason::AfterEnd, 2, 12);
        refused(
            &rt,
            b":01001000AA45\r\n:00000001FF\r\n:00000001FF\r\n",
            Reason::AfterEnd,
            3,
            28,
        );
    }

    #[test]
    fn judges_a_line_in_the_order_of_the_rules(rt: HostRuntime) {
        refused(&rt, b"x0z\n", Reason::MissingColon, 1, 0);
        refused(&rt, b":0z\n", Reason::NotADigit, 1, 2);
        refused(&rt, b":FF00000200\n", Reason::WrongLength, 1, 0);
        refused(&rt, b":0000000200\n", Reason::WrongSum, 1, 0);
        refused(&rt, b":01FFFF02FFFF\n", Reason::WrongSum, 1, 0);
        refused(&rt, b":0000FF01FF\n", Reason::WrongSum, 1, 0);
        refused(
            &rt,
            b":01001200AA43\n:02001200FFFFEE\n",
            Reason::OutOfRange,
            2,
            14,
        );
        refused(&rt, b":00000001FF\n:", Reason::AfterEnd, 2, 12);
    }

    // A text of `length` bytes, all `byte` but the first.
    fn long_text(rt: &HostRuntime, first: u8, byte: u8, length: usize) -> Result<Vec<u8>, Fail> {
        let mut text = vec![in rt.alloc(); byte; length]?;
        if let Some(front) = text.get_mut(0) {
            *front = first;
        }
        Ok(text)
    }

    #[test]
    fn refuses_long_texts_as_any_other(rt: HostRuntime) -> Result<(), Fail> {
        refused(
            &rt,
            &long_text(&rt, b':', b':', MAX_TEXT)?,
            Reason::NotADigit,
            1,
            1,
        );
        refused(
            &rt,
            &long_text(&rt, 0, 0, MAX_TEXT)?,
            Reason::MissingColon,
            1,
            0,
        );
        refused(
            &rt,
            &long_text(&rt, b':', b'0', MAX_TEXT)?,
            Reason::WrongLength,
            1,
            0,
        );
        refused(
            &rt,
            &long_text(&rt, b'\n', b'\n', MAX_TEXT)?,
            Reason::MissingColon,
            1,
            0,
        );
        refused(
            &rt,
            &long_text(&rt, b':', b'\r', MAX_TEXT)?,
            Reason::NotADigit,
            1,
            1,
        );
        Ok(())
    }

    #[test]
    fn leaves_the_image_untouched_under_39(rt: HostRuntime) -> Result<(), Fail> {
        let fault = HexFault {
            reason: Reason::TooLong,
            line: 0,
            position: 0,
        };
        let mut small = [0x5au8; 2];
        assert_eq!(rt;
            fill(&long_text(&rt, b':', b'0', MAX_TEXT + 1)?, &mut small),
            Err(fault)
        );
        assert_eq!(rt; small, [0x5a; 2]);
        let mut image = vec![in rt.alloc(); 0x5au8; MAX_IMAGE + 1]?;
        assert_eq!(rt; fill(b":00000001FF", &mut image), Err(fault));
        assert_eq!(rt; image.first().copied(), Some(0x5a));
        assert_eq!(rt; image.last().copied(), Some(0x5a));
        let whole = fill(b":017FFF00423F\n:00000001FF", &mut image[0..MAX_IMAGE]);
        let span = Some(Span {
            lowest: 0x7fff,
            highest: 0x7fff,
        });
        assert_eq!(rt;
            whole,
            Ok(Survey {
                records: 1,
                bytes: 1,
                span,
            })
        );
        Ok(())
    }

    // The next record is data at a place, with these digits.
    fn gives(rt: &impl Abort, reader: &mut Reader<'_>, at: u16, text: &[u8]) -> Result<(), Fail> {
        match reader.next()? {
            Some(Record::Data { place, pairs }) => {
                assert_eq!(rt; place, at);
                assert_eq!(rt; pairs.digits, text);
                Ok(())
            }
            _ => Err(Fail::new("no data record")),
        }
    }

    #[test]
    fn a_reader_gives_records_one_by_one(rt: HostRuntime) -> Result<(), Fail> {
        let mut reader = Reader::new(b":03001000050AFFDF\r\n:01001300fFed\n:00000001FF");
        gives(&rt, &mut reader, 0x10, b"050AFF")?;
        gives(&rt, &mut reader, 0x13, b"fF")?;
        assert_eq!(rt; reader.next()?, Some(Record::End));
        assert_eq!(rt; reader.next()?, None);
        assert_eq!(rt; reader.next()?, None);
        Ok(())
    }

    #[test]
    fn a_reader_stays_at_a_line_that_it_refuses(rt: HostRuntime) -> Result<(), Fail> {
        let mut reader = Reader::new(b":00000001FF\n:00000000x0\n");
        assert_eq!(rt; reader.next()?, Some(Record::End));
        let fault = HexFault {
            reason: Reason::NotADigit,
            line: 2,
            position: 21,
        };
        assert_eq!(rt; reader.next(), Err(fault));
        assert_eq!(rt; reader.next(), Err(fault));
        Ok(())
    }

    #[test]
    fn a_refusal_is_one_sentence(rt: HostRuntime) -> Result<(), Fail> {
        let fault = HexFault {
            reason: Reason::WrongSum,
            line: 17,
            position: 1048,
        };
        assert_eq!(rt;
            fault.to_string(rt.alloc())?.as_str(),
            "refusal 33 at line 17, position 1048: the bytes of the line do not add up to 0 modulo 256"
        );
        Ok(())
    }
}
