// Reads Intel HEX text into an image.
#![tactic(auto)]

mod export;
mod fault;
mod image;
mod pairs;
mod reader;
mod record;
mod survey;

pub use export::ihex_fill;
pub use fault::{HexFault, Reason};
pub use image::{MAX_IMAGE, MAX_TEXT, fill};
pub use pairs::Pairs;
pub use reader::Reader;
pub use record::Record;
pub use survey::{Span, Survey};
