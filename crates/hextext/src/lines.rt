ghost use Rattle.std.specs.Prelude.{◌≡◌, ◌<◌, length, MatchOption};
ghost use Rattle.hextext.specs.Lines.{before_feed, chomped, line_of, after_line, Split, OnlySplit};

use memchr::memchr;
use std::simd::prelude::*;

// How many bytes of a text are looked at together, and how many at most before `memchr` is called.
const LANES: usize = 16;

const NEAR: usize = 64;

// Where the first LF stands, if there is one. `memchr` is made for what lies far off, and lines are short.
fn line_feed(text: &[u8]) -> Option<usize>
    ensures found { MatchOption result (before_feed text.now ≡ length text.now) (λ i. (i < length text.now) × (i ≡ before_feed text.now)) }
    ensures split { Split text.now (line_of text.now) (after_line text.now) }
    ensures only { OnlySplit text.now (line_of text.now) (after_line text.now) }
{
    let mut at = 0;
    'chunks: while at < NEAR && text.len() - at >= LANES {
        let lanes = u8x16::from_slice(&text[at..]);
        let feeds = lanes.simd_eq(u8x16::splat(b'\n')).to_bitmask();
        if feeds != 0 {
            return Some(at + feeds.trailing_zeros() as usize);
        }
        at += LANES;
    }
    match memchr(b'\n', &text[at..]) {
        Some(far) => Some(at + far),
        None => None,
    }
}

// The line without a CR at its end.
fn without_return(line: &[u8]) -> &[u8]
    ensures { result.now ≡ chomped line.now }
{
    line.strip_suffix(b"\r").unwrap_or(line)
}

// The first line of a text, without its end, and the text after it.
pub fn split_line(text: &[u8]) -> (&[u8], &[u8])
    ensures line { result.0.now ≡ line_of text.now }
    ensures rest { result.1.now ≡ after_line text.now }
    ensures split { Split text.now result.0.now result.1.now }
    ensures only { OnlySplit text.now (line_of text.now) (after_line text.now) }
{
    match line_feed(text) {
        Some(end) => (without_return(&text[..end]), &text[end + 1..]),
        None => (text, &[]),
    }
}
