// Commands, modes, marks and times, on an empty socket, as tests.
#![tactic(auto)]

#[cfg(test)]
mod tests {
    use chip::{
        Chip, Code, Command, Marks, Mode, NoCommand, Run, Tallies, Turn, Voltage, capacity,
    };
    use socket::EmptySocket;
    use std::test::Fail;

    // A socket at high voltage in this mode, with a turn of 3 at place 7.
    fn socket_in(mode: Mode) -> EmptySocket {
        let mut socket = EmptySocket::new();
        socket.register.voltage = Voltage::High;
        socket.register.marks.turn = Turn {
            place: 7,
            length: 3,
            longest: 3,
        };
        socket.register.mode = mode;
        socket
    }

    // The mode and the turn's length after FFh, written in this mode at address 5.
    fn reset_in(mode: Mode) -> (Mode, u16) {
        let mut socket = socket_in(mode);
        socket.write_cycle(5, 0xFF);
        (socket.register.mode, socket.register.marks.turn.length)
    }

    #[test]
    fn ff_is_a_reset_but_for_a_setup_that_awaits_its_second_byte(rt: HostRuntime) {
        let programming = Mode::Programming {
            place: 7,
            byte: 0,
            time: 10,
        };
        let started = Mode::Programming {
            place: 5,
            byte: 0xFF,
            time: 0,
        };
        assert_eq!(rt; reset_in(Mode::Read), (Mode::Idle, 0));
        assert_eq!(rt; reset_in(Mode::Sign), (Mode::Idle, 0));
        assert_eq!(rt; reset_in(Mode::Idle), (Mode::Idle, 0));
        assert_eq!(rt; reset_in(Mode::ProgramSetup), (started, 3));
        assert_eq!(rt; reset_in(programming), (Mode::Idle, 0));
        assert_eq!(rt;
            reset_in(Mode::ProgramVerify { place: 7, time: 6 }),
            (Mode::Idle, 0)
        );
        assert_eq!(rt; reset_in(Mode::EraseSetup), (Mode::Idle, 3));
        // a short erase pulse leaves the turn, so that it is the reset that ends it
        assert_eq!(rt; reset_in(Mode::Erasing { time: 9_999 }), (Mode::Idle, 0));
        assert_eq!(rt;
            reset_in(Mode::EraseVerify { place: 7, time: 6 }),
            (Mode::Idle, 0)
        );
    }

    // The mode after C0h, written in this mode at address 5.
    fn verify_in(mode: Mode) -> Mode {
        let mut socket = socket_in(mode);
        socket.write_cycle(5, 0xC0);
        socket.register.mode
    }

    #[test]
    fn program_verify_follows_a_program_pulse_only(rt: HostRuntime) {
        let programming = Mode::Programming {
            place: 3,
            byte: 0,
            time: 10,
        };
        let started = Mode::Programming {
            place: 5,
            byte: 0xC0,
            time: 0,
        };
        assert_eq!(rt;
            verify_in(programming),
            Mode::ProgramVerify { place: 3, time: 0 }
        );
        assert_eq!(rt; verify_in(Mode::ProgramSetup), started);
        assert_eq!(rt; verify_in(Mode::Read), Mode::Idle);
        assert_eq!(rt; verify_in(Mode::Sign), Mode::Idle);
        assert_eq!(rt; verify_in(Mode::Idle), Mode::Idle);
        assert_eq!(rt;
            verify_in(Mode::ProgramVerify { place: 3, time: 6 }),
            Mode::Idle
        );
        assert_eq!(rt; verify_in(Mode::EraseSetup), Mode::Idle);
        assert_eq!(rt; verify_in(Mode::Erasing { time: 10_000 }), Mode::Idle);
        assert_eq!(rt;
            verify_in(Mode::EraseVerify { place: 3, time: 6 }),
            Mode::Idle
        );
    }

    #[test]
    fn addresses_wrap_round_in_the_mode(rt: HostRuntime) {
        let mut socket = socket_in(Mode::Read);
        socket.write_cycle(32_769, 0xA0);
        assert_eq!(rt;
            socket.register.mode,
            Mode::EraseVerify { place: 1, time: 0 }
        );
        socket.write_cycle(0, 0x40);
        socket.write_cycle(65_535, 0x12);
        assert_eq!(rt;
            socket.register.mode,
            Mode::Programming {
                place: 32_767,
                byte: 0x12,
                time: 0,
            }
        );
    }

    #[test]
    fn time_stops_at_65535(rt: HostRuntime) {
        let mut socket = socket_in(Mode::Erasing { time: 0 });
        socket.wait(65_535);
        assert_eq!(rt; socket.register.mode, Mode::Erasing { time: 65_535 });
        socket.wait(65_535);
        assert_eq!(rt; socket.register.mode, Mode::Erasing { time: 65_535 });
        socket.register.mode = Mode::Idle;
        socket.wait(65_535);
        assert_eq!(rt; socket.register.mode, Mode::Idle);
    }

    #[test]
    fn lengths_stop_at_65535_and_tallies_wrap_round(rt: HostRuntime) {
        let mut socket = socket_in(Mode::Programming {
            place: 7,
            byte: 0,
            time: 10,
        });
        let full = Tallies {
            program: u64::MAX,
            erase: u64::MAX,
            short: u64::MAX,
            hard: u64::MAX,
        };
        let peak = Turn {
            place: 7,
            length: 65_535,
            longest: 65_535,
        };
        socket.register.marks = Marks {
            tallies: full,
            turn: peak,
            run: Run {
                length: 2,
                longest: 2,
            },
        };
        socket.set_voltage(Voltage::High);
        assert_eq!(rt;
            socket.register.marks,
            Marks {
                tallies: Tallies { program: 0, ..full },
                turn: peak,
                run: Run {
                    length: 0,
                    longest: 2,
                },
            }
        );
        // an empty socket is never wholly at zero: an erase opened on it is hard
        socket.register.marks.run.longest = 65_535;
        socket.register.mode = Mode::Erasing { time: 10_000 };
        socket.set_voltage(Voltage::High);
        assert_eq!(rt;
            socket.register.marks,
            Marks {
                tallies: Tallies {
                    program: 0,
                    erase: 0,
                    hard: 0,
                    ..full
                },
                turn: Turn { length: 0, ..peak },
                run: Run {
                    length: 1,
                    longest: 65_535,
                },
            }
        );
        socket.register.marks.run.length = 65_535;
        socket.register.mode = Mode::Erasing { time: 10_000 };
        socket.set_voltage(Voltage::Low);
        assert_eq!(rt; socket.register.marks.run.length, 65_535);
        assert_eq!(rt; socket.register.marks.tallies.hard, 0);
    }

    #[test]
    fn every_reading_of_an_empty_socket_is_ff(rt: HostRuntime) {
        let mut socket = EmptySocket::new();
        assert_eq!(rt; capacity(&socket), 32_768);
        assert_eq!(rt; socket.read_cycle(0), 0xFF);
        assert_eq!(rt; socket.signature_cycle(Code::Device), 0xFF);
        socket.set_voltage(Voltage::High);
        socket.write_cycle(0, 0x90);
        assert_eq!(rt; socket.register.mode, Mode::Sign);
        assert_eq!(rt; socket.signature_cycle(Code::Maker), 0xFF);
        socket.write_cycle(0, 0xA0);
        socket.wait(6);
        assert_eq!(rt; socket.read_cycle(0), 0xFF);
    }

    #[test]
    fn a_byte_is_a_command_or_says_that_it_is_none(rt: HostRuntime) -> Result<(), Fail> {
        assert_eq!(rt; Command::try_from(0x90), Ok(Command::Sign));
        assert_eq!(rt; u8::from(Command::EraseVerify), 0xA0);
        assert_eq!(rt; Command::try_from(0x41), Err(NoCommand(0x41)));
        let text = NoCommand(0x41).to_string(rt.alloc())?;
        assert_eq!(rt; text.as_str(), "no command has the byte 65");
        Ok(())
    }
}
