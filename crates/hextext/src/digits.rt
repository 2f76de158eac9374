ghost use Rattle.std.specs.Prelude.{◌≡◌, ◌+◌, ◌<◌, length, IfSome};
ghost use Rattle.std.specs.Option.{option_map};
ghost use Rattle.std.specs.List.{between};
ghost use Rattle.hextext.specs.Digits.{digit_value, front, Coded, Run};

use crate::table::{NONE, VALUES};

// What the table has for a byte.
fn looked_up(byte: u8) -> u8
    ensures { Coded byte result }
{
    VALUES[usize::from(byte)]
}

// The value of a hexadecimal digit, of either case.
pub fn digit(byte: u8) -> Option<u8>
    ensures value { result ≡ digit_value byte }
    ensures bound { IfSome result (λ v. v < 16) }
{
    let value = looked_up(byte);
    if value == NONE { None } else { Some(value) }
}

// The byte that two digits at the front write, and the text after them.
pub fn take_byte(text: &[u8]) -> Option<(u8, &[u8])>
    ensures byte { option_map (λ p. p.0) result ≡ front text.now }
    ensures rest { IfSome result (λ p. p.1.now ≡ between 2 (length text.now) text.now) }
{
    let [high, low, rest @ ..] = text else {
        return None;
    };
    let high = digit(*high)?;
    let low = digit(*low)?;
    Some((high * 16 + low, rest))
}

// How many digits stand at the front of a text.
pub fn digit_run(text: &[u8]) -> usize
    ensures { Run text.now result }
{
    text.iter()
        .position(|byte| digit(*byte).is_none())
        .unwrap_or(text.len())
}
