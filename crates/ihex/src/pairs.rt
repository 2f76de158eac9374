ghost use Rattle.std.specs.Prelude.{◌≡◌, ◌*◌, ◌/◌, ◌%◌, ◌≤◌, length, take, sum, MatchOption};
ghost use Rattle.hextext.specs.Digits.{bytes_of};
ghost use Rattle.ihex.specs.Pairing.{Paired, Taken};

use hextext::take_byte;

// Pairs of digits, and nothing else: two to a byte.
#[derive(Clone, Copy, Debug, PartialEq)]
pub struct Pairs<'a> {
    pub digits: &'a [u8],
    ghost paired: { Paired digits.now },
}

impl<'a> Pairs<'a> {
    // The pairs that digits make, and the sum of their bytes modulo 256; none where a byte is no digit, or the last digit
    // stands alone.
    pub(crate) fn summed(digits: &'a [u8]) -> Option<(Pairs<'a>, u8)>
        ensures { MatchOption result (Paired digits.now → ⊥) (λ p. (p.0.digits ≡ digits.entry) × (p.1 ≡ sum (bytes_of p.0.digits.now) % 256)) }
    {
        if digits.len() % 2 != 0 {
            return None;
        }
        let mut sum: u8 = 0;
        // Exact chunks: the length of one of `chunks` is known only when it comes, and the next waits for it.
        'pairs: for pair in digits.chunks_exact(2) {
            let (byte, _) = take_byte(pair)?;
            sum = sum.wrapping_add(byte);
        }
        Some((Pairs { digits }, sum))
    }

    // How many bytes they write.
    pub(crate) fn len(self) -> usize
        ensures { result ≡ length self.entry.digits.now / 2 }
    {
        self.digits.len() / 2
    }

    // The first byte, and the pairs after it.
    pub(crate) fn split_first(self) -> Option<(u8, Pairs<'a>)>
        ensures { MatchOption result (length self.entry.digits.now ≡ 0) (λ p. Taken self.entry.digits.now p.0 p.1.digits.now) }
    {
        let (byte, digits) = take_byte(self.digits)?;
        Some((byte, Pairs { digits }))
    }

    // The first `count` pairs.
    pub(crate) fn first(self, count: usize) -> Pairs<'a>
        requires { 2 * count ≤ length self.digits.now }
        ensures { result.digits.now ≡ take (2 * count) self.entry.digits.now }
    {
        Pairs {
            digits: &self.digits[..2 * count],
        }
    }

    // Writes their bytes.
    pub(crate) fn write(self, part: &mut [u8])
        requires { length self.digits.now ≡ 2 * length part.old }
        ensures { part.new ≡ bytes_of self.entry.digits.now }
    {
        // Not zipped with the part: a proof knows nothing of what is written through an adapter of `iter_mut`.
        let mut rest = self;
        'pairs: for byte in part.iter_mut() {
            let Some((value, after)) = rest.split_first() else {
                unreachable!()
            };
            *byte = value;
            rest = after;
        }
    }
}
