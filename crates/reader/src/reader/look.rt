//! Making a reader, and looking at what it has not sent.
ghost use Rattle.std.specs.Prelude.{◌≡◌, ◌^◌, ◌≤◌, length, take, IfSome};
ghost use Rattle.std.specs.Option.{option_map};
ghost use Rattle.link.specs.Numbered.{numbers_of};
ghost use Rattle.reader.specs.Reading.{messages};
ghost use Rattle.reader.specs.Readers.{FetchedIn, given, pipe_of, unsent};
ghost use Rattle.reader.specs.Bytes.{flat};

use crate::cursor::{Cursor, Place};
use crate::reader::Reader;
use crate::text::Text;

impl Reader {
    /// A reader of these bytes, cut into messages of these lengths, each at most what is left.
    ///
    /// Bytes after the last length belong to no message; a length with nothing left makes an empty one. Only as many bytes and
    /// messages count as a term may have: 16,777,216 of each.
    pub fn new(bytes: Vec<u8>, lengths: Vec<u32>) -> Reader
        ensures { pipe_of result ≡ given (messages (take (2 ^ 24) bytes.items) (take (2 ^ 24) lengths.items)) }
    {
        let start = Cursor {
            message: 0,
            spent: 0,
            here: 0,
        };
        Reader {
            text: Text::new(bytes, lengths),
            window: None,
            start,
            place: Place {
                at: start,
                number: 0,
            },
        }
    }

    /// How many messages are unsent: those that are not wholly acknowledged.
    pub fn unsent_messages(&self) -> usize
        ensures { result ≡ length (unsent (pipe_of self.now)) }
    {
        self.text.count() - self.place.at.message
    }

    /// The bytes of the unsent messages, one after another, without those that are acknowledged.
    pub fn unsent_bytes(&self) -> &[u8]
        ensures { result.now ≡ flat (unsent (pipe_of self.now)) }
    {
        self.text.rest(self.place.at)
    }

    /// The packet at an offset from the place, if a Fetch may give it.
    pub(crate) fn packet(&self, offset: u8) -> Option<&[u8]>
        ensures packet { FetchedIn (numbers_of self.now.window) (pipe_of self.now) offset (option_map (λ p. p.now) result) }
        ensures short { IfSome result (λ p. length p.now ≤ 3584) }
    {
        let window = self.window?.get();
        if offset >= window.burst {
            return None;
        }
        let left = self.text.left(self.place.at)?;
        let size = window.packet as usize;
        let skip = offset as usize * size;
        let many = size.min(left.checked_sub(skip)?);
        Some(self.text.part(self.place.at.here + skip, many))
    }
}
