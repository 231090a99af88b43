//! The reader: one inward pipe, whose text is given bytes cut into messages of given lengths.
ghost use Rattle.std.specs.Prelude.{◌≡◌, ◌+◌, ◌≤◌, length};
ghost use Rattle.reader.specs.Reading.{text_at};
ghost use Rattle.link.specs.Meaning.{unacknowledged};
ghost use Rattle.link.specs.Numbered.{numbers_of};
ghost use Rattle.link.specs.Terms.{total};

pub mod carry;
pub mod look;

use crate::cursor::{Cursor, Place};
use crate::text::Text;
use link::SoundWindow;

/// One inward pipe, whose text is given bytes cut into messages of given lengths.
///
/// `start` is where the text of the term begins, `place` where it stands in the term.
#[derive(Drop)]
pub struct Reader {
    text: Text,
    window: Option<SoundWindow>,
    start: Cursor,
    place: Place,
    ghost stands: { text_at text.bytes.items text.lengths.items place.at ≡ unacknowledged (numbers_of window) (text_at text.bytes.items text.lengths.items start) place.number },
    ghost inside: { place.at.here ≤ length text.bytes.items },
    ghost within: { place.at.message ≤ length text.lengths.items },
    ghost reached: { place.number ≤ total (numbers_of window) (text_at text.bytes.items text.lengths.items start) },
    ghost small: { place.number ≤ place.at.here + place.at.message },
}
