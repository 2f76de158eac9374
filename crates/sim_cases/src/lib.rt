// Simulated chips driven cycle by cycle, as tests.
#![tactic(auto)]

ghost use Rattle.std.specs.Prelude.{◌≡◌, [], ◌∷◌, map, length};
ghost use Rattle.chip.specs.Rules.{Sized, write, read, wait};
ghost use Rattle.chip.specs.Runs.{Ran};
ghost use Rattle.places.specs.Cells.{cells, refreshed};

#[cfg(test)]
mod tests {
    use carrier::{Carrier, Mirror};
    use chip::{Chip, Code, Mode, Run, Signature, Tallies, Turn, Voltage, capacity};
    use places::{Place, TableFault, check_table};
    use sim::{SlowChip, TableChip};
    use std::process::Abort;
    use std::test::Fail;

    const AM28F256: Signature = Signature {
        maker: 0x01,
        device: 0xA1,
    };

    // What a comparison of marks names, in one line each.
    fn tallies(program: u64, erase: u64, short: u64, hard: u64) -> Tallies {
        Tallies {
            program,
            erase,
            short,
            hard,
        }
    }

    fn turn(place: u16, length: u16, longest: u16) -> Turn {
        Turn {
            place,
            length,
            longest,
        }
    }

    fn run(length: u16, longest: u16) -> Run {
        Run { length, longest }
    }

    // One attempt on a byte, with a program pulse and a settling time of these lengths: what is read.
    fn attempt<C: Chip>(chip: &mut C, place: u16, byte: u8, pulse: u16, settling: u16) -> u8
        ensures { Ran C.Chip.takes chip.old (write 0 0x40 ∷ write place byte ∷ wait pulse ∷ write 0 0xC0 ∷ wait settling ∷ read 0 result ∷ []) chip.new }
    {
        chip.write_cycle(0, 0x40);
        chip.write_cycle(place, byte);
        chip.wait(pulse);
        chip.write_cycle(0, 0xC0);
        chip.wait(settling);
        chip.read_cycle(0)
    }

    fn erase<C: Chip>(chip: &mut C, pulse: u16)
        ensures { Ran C.Chip.takes chip.old (write 0 0x20 ∷ write 0 0x20 ∷ wait pulse ∷ []) chip.new }
    {
        chip.write_cycle(0, 0x20);
        chip.write_cycle(0, 0x20);
        chip.wait(pulse);
    }

    // What a place shows under erase margin. The command ends a pulse that is still open.
    fn erase_verify<C: Chip>(chip: &mut C, place: u16) -> u8
        ensures { Ran C.Chip.takes chip.old (write place 0xA0 ∷ wait 6 ∷ read 0 result ∷ []) chip.new }
    {
        chip.write_cycle(place, 0xA0);
        chip.wait(6);
        chip.read_cycle(0)
    }

    fn read<C: Chip>(chip: &mut C, place: u16) -> u8
        ensures { Ran C.Chip.takes chip.old (write 0 0x00 ∷ read place result ∷ []) chip.new }
    {
        chip.write_cycle(0, 0x00);
        chip.read_cycle(place)
    }

    #[test]
    fn a_place_with_program_delay_24_gives_way_at_the_25th_pulse(rt: HostRuntime) {
        let mut table = [Place::new(24, 0); 2];
        let mut chip: SlowChip = TableChip::new(&mut table, AM28F256);
        chip.set_voltage(Voltage::High);
        for _ in 0..23 {
            assert_eq!(rt; attempt(&mut chip, 1, 0x00, 10, 6), 0xFF);
        }
        assert_eq!(rt; read(&mut chip, 1), 0xFF);
        // at the delay: read as programmed, but not under program margin
        assert_eq!(rt; attempt(&mut chip, 1, 0x00, 10, 6), 0xFF);
        assert_eq!(rt; read(&mut chip, 1), 0x00);
        assert_eq!(rt; attempt(&mut chip, 1, 0x00, 10, 6), 0x00);
        assert_eq!(rt; read(&mut chip, 0), 0xFF);
        let marks = chip.register.marks;
        assert_eq!(rt; marks.tallies, tallies(25, 0, 0, 0));
        assert_eq!(rt; marks.turn, turn(1, 25, 25));
        assert_eq!(rt; table[1].program_strikes.count, 25);
    }

    #[test]
    fn a_place_with_program_delay_25_does_not(rt: HostRuntime) {
        let mut table = [Place::new(25, 0); 2];
        let mut chip: SlowChip = TableChip::new(&mut table, AM28F256);
        chip.set_voltage(Voltage::High);
        for _ in 0..25 {
            assert_eq!(rt; attempt(&mut chip, 0, 0x00, 10, 6), 0xFF);
        }
        assert_eq!(rt; read(&mut chip, 0), 0x00);
        assert_eq!(rt; chip.register.marks.turn, turn(0, 25, 25));
        assert_eq!(rt; table[0].erase, 0x00);
        assert_eq!(rt; table[0].program, 0xFF);
    }

    #[test]
    fn an_erase_delay_is_counted_in_erase_pulses(rt: HostRuntime) {
        let mut table = [Place::new(0, 2); 4];
        let mut chip: SlowChip = TableChip::new(&mut table, AM28F256);
        chip.set_voltage(Voltage::High);
        for place in 0..4 {
            assert_eq!(rt; attempt(&mut chip, place, 0x00, 10, 6), 0x00);
        }
        erase(&mut chip, 10_000);
        assert_eq!(rt; erase_verify(&mut chip, 3), 0x00);
        assert_eq!(rt; read(&mut chip, 3), 0x00);
        // at the delay: read as erased, but not under erase margin
        erase(&mut chip, 10_000);
        assert_eq!(rt; erase_verify(&mut chip, 3), 0x00);
        assert_eq!(rt; read(&mut chip, 3), 0xFF);
        erase(&mut chip, 10_000);
        assert_eq!(rt; erase_verify(&mut chip, 3), 0xFF);
        let marks = chip.register.marks;
        assert_eq!(rt; marks.tallies, tallies(4, 3, 0, 0));
        assert_eq!(rt; marks.run, run(3, 3));
        // a program strike begins the count anew
        assert_eq!(rt; attempt(&mut chip, 3, 0x7F, 10, 6), 0x7F);
        assert_eq!(rt; chip.register.marks.run, run(0, 3));
        assert_eq!(rt; table[3].erase_strikes.count, 0);
        assert_eq!(rt; table[3].program_strikes.count, 1);
        assert_eq!(rt; table[2].erase_strikes.count, 3);
        assert_eq!(rt; table[2].program_strikes.count, 0);
    }

    #[test]
    fn a_short_pulse_strikes_and_is_marked_short(rt: HostRuntime) {
        let mut table = [Place::new(0, 0); 2];
        let mut chip: SlowChip = TableChip::new(&mut table, AM28F256);
        chip.set_voltage(Voltage::High);
        assert_eq!(rt; attempt(&mut chip, 0, 0x0F, 9, 6), 0x0F);
        assert_eq!(rt; chip.register.marks.tallies, tallies(0, 0, 1, 0));
        assert_eq!(rt; chip.register.marks.turn, turn(0, 0, 0));
        erase(&mut chip, 9_999);
        assert_eq!(rt; erase_verify(&mut chip, 0), 0xFF);
        assert_eq!(rt; chip.register.marks.tallies, tallies(0, 0, 2, 0));
        assert_eq!(rt; chip.register.marks.run, run(0, 0));
    }

    #[test]
    fn an_erase_is_judged_by_the_chip_before_its_first_pulse(rt: HostRuntime) {
        let mut table = [Place::new(0, 0); 2];
        let mut chip: SlowChip = TableChip::new(&mut table, AM28F256);
        chip.set_voltage(Voltage::High);
        assert_eq!(rt; attempt(&mut chip, 0, 0x00, 10, 6), 0x00);
        assert_eq!(rt; attempt(&mut chip, 1, 0x00, 10, 6), 0x00);
        erase(&mut chip, 10_000);
        assert_eq!(rt; erase_verify(&mut chip, 1), 0xFF);
        assert_eq!(rt; chip.register.marks.tallies, tallies(2, 1, 0, 0));
    }

    #[test]
    fn an_erase_opened_on_a_chip_not_at_zero_is_hard(rt: HostRuntime) {
        let mut table = [Place::new(0, 0); 2];
        let mut chip: SlowChip = TableChip::new(&mut table, AM28F256);
        chip.set_voltage(Voltage::High);
        assert_eq!(rt; attempt(&mut chip, 0, 0x00, 10, 6), 0x00);
        erase(&mut chip, 10_000);
        // setting the voltage ends the pulse too
        chip.set_voltage(Voltage::High);
        assert_eq!(rt; chip.register.marks.tallies, tallies(1, 1, 0, 1));
        // the run goes on: only its opening is judged
        erase(&mut chip, 10_000);
        chip.set_voltage(Voltage::Low);
        assert_eq!(rt; chip.register.marks.tallies, tallies(1, 2, 0, 1));
        assert_eq!(rt; chip.register.marks.run, run(2, 2));
    }

    #[test]
    fn verifying_needs_six_microseconds(rt: HostRuntime) {
        let mut table = [Place::new(0, 0); 2];
        let mut chip: SlowChip = TableChip::new(&mut table, AM28F256);
        chip.set_voltage(Voltage::High);
        assert_eq!(rt; attempt(&mut chip, 1, 0xA5, 10, 5), 0xFF);
        chip.wait(1);
        assert_eq!(rt; chip.read_cycle(0), 0xA5);
        assert_eq!(rt; attempt(&mut chip, 1, 0xA5, 10, 6), 0xA5);
        chip.write_cycle(1, 0xA0);
        chip.wait(5);
        assert_eq!(rt; chip.read_cycle(0), 0xFF);
        chip.wait(1);
        assert_eq!(rt; chip.read_cycle(0), 0xA5);
    }

    // What the lender of a table knows when the chip is gone: nothing but the making has changed it.
    fn write_at_low_voltage(table: &mut [Place])
        ensures lawful { Sized (length (cells table.old)) → cells table.new ≡ map refreshed (cells table.old) }
        ensures unlawful { (Sized (length (cells table.old)) → ⊥) → cells table.new ≡ cells table.old }
    {
        let mut chip: SlowChip = TableChip::new(table, AM28F256);
        chip.write_cycle(0, 0x40);
        chip.write_cycle(0, 0x00);
        chip.wait(10);
        chip.write_cycle(0, 0xC0);
    }

    #[test]
    fn a_write_at_low_voltage_does_nothing(rt: HostRuntime) {
        let mut table = [Place::new(0, 0); 2];
        let mut chip: SlowChip = TableChip::new(&mut table, AM28F256);
        chip.write_cycle(0, 0x40);
        assert_eq!(rt; chip.register.mode, Mode::Read);
        chip.write_cycle(1, 0x00);
        chip.wait(10);
        chip.write_cycle(0, 0xC0);
        assert_eq!(rt; chip.register.mode, Mode::Read);
        assert_eq!(rt; chip.read_cycle(1), 0xFF);
        assert_eq!(rt; chip.register.marks.tallies, tallies(0, 0, 0, 0));
        assert_eq!(rt; table[1].program_strikes.count, 0);
        let mut chip: SlowChip = TableChip::new(&mut table, AM28F256);
        chip.set_voltage(Voltage::High);
        assert_eq!(rt; attempt(&mut chip, 0, 0x12, 10, 6), 0x12);
        write_at_low_voltage(&mut table);
        assert_eq!(rt; table[0].read, 0xFF);
        assert_eq!(rt; table[0].program_strikes.count, 0);
        let mut three = [table[0]; 3];
        write_at_low_voltage(&mut three);
        assert_eq!(rt; three[0].program_strikes.count, 0);
    }

    #[test]
    fn an_address_is_taken_modulo_the_size(rt: HostRuntime) {
        let mut table = [Place::new(0, 0); 16];
        let mut chip: SlowChip = TableChip::new(&mut table, AM28F256);
        chip.set_voltage(Voltage::High);
        assert_eq!(rt; attempt(&mut chip, 16, 0x12, 10, 6), 0x12);
        assert_eq!(rt; chip.register.marks.turn, turn(0, 1, 1));
        assert_eq!(rt; attempt(&mut chip, 65_535, 0x34, 10, 6), 0x34);
        assert_eq!(rt; read(&mut chip, 0), 0x12);
        assert_eq!(rt; read(&mut chip, 31), 0x34);
        assert_eq!(rt; table[0].read, 0x12);
        assert_eq!(rt; table[15].read, 0x34);
    }

    #[test]
    fn the_signature_is_read_in_sign_only(rt: HostRuntime) {
        let mut table = [Place::new(0, 0); 2];
        let mut chip: SlowChip = TableChip::new(&mut table, AM28F256);
        chip.set_voltage(Voltage::High);
        // Read, Idle, Program Setup, Programming, Program Verify, Erase Setup, Erasing, Erase Verify
        for byte in [0x00, 0xFF, 0x40, 0xFF, 0xC0, 0x20, 0x20, 0xA0] {
            chip.write_cycle(0, byte);
            assert_eq!(rt; chip.signature_cycle(Code::Maker), 0xFF);
            assert_eq!(rt; chip.signature_cycle(Code::Device), 0xFF);
        }
        chip.write_cycle(0, 0x90);
        assert_eq!(rt; chip.signature_cycle(Code::Maker), AM28F256.maker);
        assert_eq!(rt; chip.signature_cycle(Code::Device), AM28F256.device);
    }

    #[test]
    fn a_mirror_of_16_places_takes_3_to_12(rt: HostRuntime) {
        let mut table = [Place::new(0, 0); 16];
        let chip: SlowChip = TableChip::new(&mut table, AM28F256);
        let mut carrier = Carrier {
            chip,
            crossing: Mirror,
        };
        carrier.set_voltage(Voltage::High);
        assert_eq!(rt; attempt(&mut carrier, 3, 0x5A, 10, 6), 0x5A);
        assert_eq!(rt; read(&mut carrier, 3), 0x5A);
        assert_eq!(rt; read(&mut carrier, 12), 0xFF);
        assert_eq!(rt; read(&mut carrier, 19), 0x5A);
        assert_eq!(rt; erase_verify(&mut carrier, 3), 0x5A);
        assert_eq!(rt; capacity(&carrier), 16);
        carrier.write_cycle(0, 0x90);
        assert_eq!(rt; carrier.signature_cycle(Code::Device), AM28F256.device);
        let Carrier { mut chip, .. } = carrier;
        assert_eq!(rt; chip.register.marks.turn.place, 12);
        assert_eq!(rt; read(&mut chip, 12), 0x5A);
    }

    // Checks a table. A refusal is told by its number.
    fn check(table: &[Place]) -> Result<(), u8> {
        check_table(table).map_err(TableFault::number)
    }

    // A chip made of this table is an empty socket, and touches no record.
    fn is_empty_socket(rt: &impl Abort, table: &mut [Place]) {
        let mut chip: SlowChip = TableChip::new(table, AM28F256);
        assert_eq!(rt; chip.size(), 32_768);
        chip.set_voltage(Voltage::High);
        chip.write_cycle(0, 0x90);
        assert_eq!(rt; chip.signature_cycle(Code::Maker), 0xFF);
        assert_eq!(rt; attempt(&mut chip, 0, 0x00, 10, 6), 0xFF);
        assert_eq!(rt; chip.register.marks.tallies, tallies(1, 0, 0, 0));
        erase(&mut chip, 10_000);
        assert_eq!(rt; erase_verify(&mut chip, 0), 0xFF);
        assert_eq!(rt; chip.register.marks.tallies, tallies(1, 1, 0, 1));
    }

    #[test]
    fn a_table_of_no_lawful_length_is_an_empty_socket(rt: HostRuntime) {
        assert_eq!(rt; check(&[]), Err(11));
        is_empty_socket(&rt, &mut []);
        let mut one = [Place::new(0, 0); 1];
        assert_eq!(rt; check(&one), Err(11));
        is_empty_socket(&rt, &mut one);
        assert_eq!(rt; one[0].program, 0xFF);
        assert_eq!(rt; one[0].program_strikes.count, 0);
        assert_eq!(rt; one[0].erase_strikes.count, 0);
        // records with a past: a byte programmed, a count
        let mut two = [Place::new(0, 7); 2];
        let mut chip: SlowChip = TableChip::new(&mut two, AM28F256);
        chip.set_voltage(Voltage::High);
        assert_eq!(rt; attempt(&mut chip, 1, 0x3C, 10, 6), 0x3C);
        assert_eq!(rt; check(&two), Ok(()));
        let mut three = [two[1], two[1], two[0]];
        assert_eq!(rt; check(&three), Err(11));
        is_empty_socket(&rt, &mut three);
        // the strikes were at place 0 and, of the erase, at every place
        for place in three.iter() {
            assert_eq!(rt; place.erase_strikes.delay, 7);
            assert_eq!(rt; place.erase_strikes.count, 0);
        }
        assert_eq!(rt; three[0].erase, 0x3C);
        assert_eq!(rt; three[0].read, 0x3C);
        assert_eq!(rt; three[0].program, 0x3C);
        assert_eq!(rt; three[0].program_strikes.count, 1);
        assert_eq!(rt; three[2].program_strikes.count, 0);
    }

    #[test]
    fn a_refusal_tells_the_length_in_words(rt: HostRuntime) -> Result<(), Fail> {
        let text = TableFault::Length(3).to_string(rt.alloc())?;
        let wanted = "no chip has 3 places: a power of two from 2 to 32,768 is asked";
        assert_eq!(rt; text.as_str(), wanted);
        Ok(())
    }

    #[test]
    fn making_refreshes_a_lawful_table_and_keeps_its_delays(rt: HostRuntime) {
        let mut table = [Place::new(3, 4); 4];
        let mut chip: SlowChip = TableChip::new(&mut table, AM28F256);
        chip.set_voltage(Voltage::High);
        for _ in 0..4 {
            chip.write_cycle(0, 0x40);
            chip.write_cycle(2, 0x00);
        }
        chip.set_voltage(Voltage::Low);
        assert_eq!(rt; table[2].program, 0x00);
        assert_eq!(rt; table[2].program_strikes.count, 4);
        let chip: SlowChip = TableChip::new(&mut table, AM28F256);
        assert_eq!(rt; chip.register.mode, Mode::Read);
        assert_eq!(rt; chip.register.voltage, Voltage::Low);
        assert_eq!(rt; chip.register.marks.tallies, tallies(0, 0, 0, 0));
        assert_eq!(rt; chip.register.marks.turn, turn(0, 0, 0));
        assert_eq!(rt; table[2].erase, 0xFF);
        assert_eq!(rt; table[2].read, 0xFF);
        assert_eq!(rt; table[2].program, 0xFF);
        assert_eq!(rt; table[2].program_strikes.count, 0);
        assert_eq!(rt; table[2].program_strikes.delay, 3);
        assert_eq!(rt; table[2].erase_strikes.delay, 4);
    }

    #[test]
    fn the_largest_chip_has_32768_places(rt: HostRuntime) -> Result<(), Fail> {
        let mut table = vec![in rt.alloc(); Place::new(0, 0); 32_768]?;
        assert_eq!(rt; check(&table), Ok(()));
        let mut chip: SlowChip = TableChip::new(&mut table, AM28F256);
        assert_eq!(rt; capacity(&chip), 32_768);
        chip.set_voltage(Voltage::High);
        assert_eq!(rt; attempt(&mut chip, 32_767, 0x00, 10, 6), 0x00);
        assert_eq!(rt; read(&mut chip, 65_535), 0x00);
        erase(&mut chip, 10_000);
        assert_eq!(rt; erase_verify(&mut chip, 32_767), 0xFF);
        let mut more = vec![in rt.alloc(); Place::new(0, 0); 65_536]?;
        assert_eq!(rt; check(&more), Err(11));
        is_empty_socket(&rt, &mut more);
        Ok(())
    }
}
