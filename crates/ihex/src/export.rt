// The reader for callers that take a number alone: crate `ihex_c` hands it to C.
ghost use Rattle.ihex.specs.Files.{FilledByNumber};

use crate::image::fill;

// Reads a text into an image, as `fill` does, and answers 0, or the refusal's number.
pub fn ihex_fill(text: &[u8], image: &mut [u8]) -> u8
    ensures { FilledByNumber text.now image.old result image.new }
{
    match fill(text, image) {
        Ok(_) => 0,
        Err(fault) => fault.reason.number(),
    }
}
