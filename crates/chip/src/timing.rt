// Times in microseconds.

// A program pulse or an erase pulse under these is too short.
pub const PROGRAM_PULSE: u16 = 10;

pub const ERASE_PULSE: u16 = 10_000;

// From here on after a verify command a reading is the cell's.
pub const SETTLING: u16 = 6;
