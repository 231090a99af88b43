//! A text: bytes cut into messages of given lengths.
ghost use Rattle.std.specs.Prelude.{◌≡◌, ◌+◌, ◌^◌, ◌<◌, ◌≤◌, [], length, take, drop, IfSome, MatchOption};
ghost use Rattle.reader.specs.Reading.{Next, Stands, text_at};
ghost use Rattle.reader.specs.Bytes.{flat};

pub mod seek;

use crate::cursor::Cursor;

/// Bytes cut into messages of given lengths, as many of each as a term may have.
// Joined as they are handed over: a Vec for each message would allocate, and copy every byte.
#[derive(Drop)]
pub struct Text {
    bytes: Vec<u8>,
    lengths: Vec<u32>,
    ghost few: { length bytes.items ≤ 2 ^ 24 },
    ghost short: { length lengths.items ≤ 2 ^ 24 },
}

// That a cursor lies within the bytes is a fact of both, so each call asks it: a value that held both would borrow the text while a reader changes its place.
impl Text {
    /// A text of these bytes and lengths: the first 16,777,216 of each.
    pub fn new(mut bytes: Vec<u8>, mut lengths: Vec<u32>) -> Text
        ensures bytes { result.bytes.items ≡ take (2 ^ 24) bytes.items }
        ensures lengths { result.lengths.items ≡ take (2 ^ 24) lengths.items }
    {
        bytes.truncate(1 << 24);
        lengths.truncate(1 << 24);
        Text { bytes, lengths }
    }

    /// How many messages there are.
    pub fn count(&self) -> usize
        ensures { result ≡ length self.now.lengths.items }
    {
        self.lengths.len()
    }

    /// How many bytes are left of a cursor's message, if there is one.
    pub fn left(&self, at: Cursor) -> Option<usize>
        requires { at.here ≤ length self.now.bytes.items }
        ensures left { MatchOption result (text_at self.now.bytes.items self.now.lengths.items at ≡ []) (λ n. Stands self.now.bytes.items self.now.lengths.items at n) }
        ensures fits { IfSome result (λ n. 0 < n → at.spent + n < 2 ^ 32) }
    {
        let length = *self.lengths.get(at.message)?;
        let left = (length as usize).saturating_sub(at.spent);
        Some(left.min(self.bytes.len() - at.here))
    }

    /// The place one packet on.
    pub fn step(&self, at: Cursor, size: usize) -> Option<Cursor>
        requires inside { at.here ≤ length self.now.bytes.items }
        requires some { 0 < size }
        ensures { MatchOption result (text_at self.now.bytes.items self.now.lengths.items at ≡ []) (λ n. Next self.now.bytes.items self.now.lengths.items size at n) }
    {
        let left = self.left(at)?;
        Some(if left < size {
            Cursor {
                message: at.message + 1,
                spent: 0,
                here: at.here + left,
            }
        } else {
            Cursor {
                message: at.message,
                spent: at.spent + size,
                here: at.here + size,
            }
        })
    }

    /// So many bytes, from a byte on.
    pub fn part(&self, from: usize, many: usize) -> &[u8]
        requires { from + many ≤ length self.now.bytes.items }
        ensures { result.now ≡ take many (drop from self.now.bytes.items) }
    {
        &self.bytes[from..from + many]
    }

    /// The bytes that are left of all messages, one after another.
    pub fn rest(&self, at: Cursor) -> &[u8]
        requires { at.here ≤ length self.now.bytes.items }
        ensures { result.now ≡ flat (text_at self.now.bytes.items self.now.lengths.items at) }
    {
        let Some(left) = self.left(at) else {
            return &[];
        };
        let most = self.bytes.len() - at.here;
        // A for: of a `fold` the check does not find that the sum fits, since the closure's `many` has no bound.
        let mut many = left;
        for length in &self.lengths[at.message + 1..] {
            many = (many + *length as usize).min(most);
        }
        &self.bytes[at.here..at.here + many]
    }
}
