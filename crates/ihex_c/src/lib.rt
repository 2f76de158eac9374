// The reader as C sees it: a static library. A slice is passed as a pointer and a length, and an answer is a number, since
// C has neither a Result nor a Survey.
#![tactic(auto)]

ghost use Rattle.ihex.specs.Files.{FilledByNumber};

// Reads a text into an image, as `ihex::fill` does, and answers 0, or the refusal's number.
#[unsafe(no_mangle)]
pub extern "C" fn ihex_fill(text: &[u8], image: &mut [u8]) -> u8
    ensures { FilledByNumber text.now image.old result image.new }
{
    ihex::ihex_fill(text, image)
}
