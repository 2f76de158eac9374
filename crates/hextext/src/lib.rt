// What texts made of hexadecimal digits share: digits, pairs of them, and lines.
#![tactic(auto)]

mod digits;
mod lines;
mod table;

pub use digits::{digit, digit_run, take_byte};
pub use lines::split_line;
