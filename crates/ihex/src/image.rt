ghost use Rattle.std.specs.Prelude.{◌≡◌, ◌<◌, ◌≤◌, ◌⊎◌, length, replicate, Decides, MatchResult};
ghost use Rattle.ihex.specs.Steps.{PutIn};
ghost use Rattle.ihex.specs.Files.{Accepted, Refused, Filled, Sole, Lined};

use crate::fault::{HexFault, Reason, Spot};
use crate::pairs::Pairs;
use crate::reader::Reader;
use crate::record::Record;
use crate::survey::Survey;

// The longest text that is read, and the largest image.
pub const MAX_TEXT: usize = 1_048_576;

pub const MAX_IMAGE: usize = 32_768;

// The byte that an erased chip shows, and a place for which a text has none.
const BLANK: u8 = 0xff;

// Puts the data of a line that stands at `spot` into the image, unless it reaches past the image or begins below `floor`.
// Answers where the data ends. Place and pairs are the fields of a `Record`; a struct of the two would be taken apart here.
fn put(
    image: &mut [u8],
    floor: usize,
    spot: Spot,
    place: u16,
    pairs: Pairs<'_>,
) -> Result<usize, HexFault>
    requires { length image.old ≤ 32768 }
    ensures { PutIn image.old floor spot.line spot.position place pairs.entry.digits.now result image.new }
{
    let from = usize::from(place);
    let to = from + pairs.len();
    if to > image.len() {
        return Err(spot.refused(Reason::OutOfRange));
    }
    if from < floor {
        return Err(spot.refused(Reason::OutOfOrder));
    }
    pairs.write(&mut image[from..to]);
    Ok(to)
}

// Reads the records of a text into an image that is FFh throughout.
fn place_all(text: &[u8], image: &mut [u8]) -> Result<Survey, HexFault>
    requires text_limit { length text.now ≤ 1048576 }
    requires image_limit { length image.old ≤ 32768 }
    requires blank { image.old ≡ replicate (length image.old) 255 }
    ensures { MatchResult result (λ s. Accepted text.now (length image.old) s image.new) (λ e. Refused text.now (length image.old) e) }
{
    let mut reader = Reader::new(text);
    let mut survey = Survey::default();
    let mut floor = 0;
    // Neither `for` nor `while let`: where a line stands is asked before it is read.
    'records: loop {
        let spot = reader.spot();
        match reader.next()? {
            Some(Record::Data { place, pairs }) => {
                floor = put(image, floor, spot, place, pairs)?;
                survey = survey.with(place, pairs.len());
            }
            Some(Record::End) => {
                if reader.position < text.len() {
                    return Err(reader.spot().refused(Reason::AfterEnd));
                }
                return Ok(survey);
            }
            None => return Err(spot.refused(Reason::MissingEnd)),
        }
    }
}

// Reads a text into an image, which then shows at each place the byte that the text has for it, and FFh where it has
// none. A refused text leaves the whole image FFh; one that is too long, or an image that is, leaves it untouched.
#[tactic(auto, using(crate::proofs::Sole::sole, crate::proofs::Sole::lined))]
pub fn fill(text: &[u8], image: &mut [u8]) -> Result<Survey, HexFault>
    ensures read { Filled text.now image.old result image.new }
    ensures sole { Sole text.now image.old }
    ensures lined { Lined text.now }
{
    if text.len() > MAX_TEXT || image.len() > MAX_IMAGE {
        // No line and no byte is at fault: 0 stands for each, as this refusal is promised.
        return Err(HexFault {
            reason: Reason::TooLong,
            line: 0,
            position: 0,
        });
    }
    image.fill(BLANK);
    let answer = place_all(text, image);
    if answer.is_err() {
        image.fill(BLANK);
    }
    answer
}
