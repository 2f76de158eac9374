// What a chip keeps besides its cells: its signature, the voltage, the mode and the marks.
ghost use Rattle.std.specs.Prelude.{◌≡◌};

// The programming voltage at the chip's VPP pin.
#[derive(Clone, Copy, Debug, Default, PartialEq)]
pub enum Voltage {
    #[default]
    Low,
    High,
}

// The two bytes by which a chip says what it is.
#[derive(Clone, Copy, Debug, PartialEq)]
pub struct Signature {
    pub maker: u8,
    pub device: u8,
}

// Which of the two a signature cycle reads. Address line A0 chooses: 0 the maker, 1 the device.
#[derive(Clone, Copy, Debug, PartialEq)]
pub enum Code {
    Maker,
    Device,
}

impl Signature {
    ghost use Rattle.chip.specs.Signatures.{byte_of};

    pub fn byte(self, code: Code) -> u8
        ensures { result ≡ byte_of code self }
    {
        match code {
            Code::Maker => self.maker,
            Code::Device => self.device,
        }
    }
}

// What the command register has been told last. Times are microseconds since the mode began.
#[derive(Clone, Copy, Debug, Default, PartialEq)]
pub enum Mode {
    #[default]
    Read,
    Sign,
    Idle,
    ProgramSetup,
    Programming { place: u16, byte: u8, time: u16 },
    ProgramVerify { place: u16, time: u16 },
    EraseSetup,
    Erasing { time: u16 },
    EraseVerify { place: u16, time: u16 },
}

// Pulses so far, modulo 2^64: full program pulses, full erase pulses, pulses that were too short,
// and erases that were opened (a full erase pulse with a run of 0 before it) on a chip not wholly at zero.
#[derive(Clone, Copy, Debug, Default, PartialEq)]
pub struct Tallies {
    pub program: u64,
    pub erase: u64,
    pub short: u64,
    pub hard: u64,
}

// A turn: the full program pulses at one place, with no full pulse elsewhere, no full erase pulse and no reset between.
#[derive(Clone, Copy, Debug, Default, PartialEq)]
pub struct Turn {
    pub place: u16,
    pub length: u16,
    pub longest: u16,
}

// A run: the full erase pulses with no full program pulse between. Turn and run each have a length and the longest
// so far as fields of their own: a struct in common would stand in each path of the rules, which are to be read beside
// docs/CHIP.md.
#[derive(Clone, Copy, Debug, Default, PartialEq)]
pub struct Run {
    pub length: u16,
    pub longest: u16,
}

// The marks that pulses leave on a chip.
#[derive(Clone, Copy, Debug, Default, PartialEq)]
pub struct Marks {
    pub tallies: Tallies,
    pub turn: Turn,
    pub run: Run,
}
