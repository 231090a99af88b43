//! The aim of a poll: the first wanted packet from a place on.
ghost use Rattle.std.specs.Prelude.{◌≡◌, ◌+◌, ◌≤◌, length, MatchOption};
ghost use Rattle.reader.specs.Seeking.{Found, Missing};

use crate::cursor::Place;
use crate::text::Text;
use link::SoundWindow;

impl Text {
    /// The first packet that is wanted, from a place on: at most as many steps as there are sequence numbers.
    pub fn seek(&self, window: SoundWindow, from: Place, wanted: u32) -> Option<Place>
        requires inside { from.at.here ≤ length self.now.bytes.items }
        requires within { from.at.message ≤ length self.now.lengths.items }
        requires small { from.number ≤ from.at.here + from.at.message }
        ensures { MatchOption result (Missing self.now.bytes.items self.now.lengths.items window.window.packet window.window.range wanted from) (λ f. Found self.now.bytes.items self.now.lengths.items window.window.packet window.window.range wanted from f) }
    {
        let window = window.get();
        let size = window.packet as usize;
        let range = window.range as usize;
        let mut at = from.at;
        // d counts packets from the place on; no slice is indexed by it, and a chain would carry the cursor along all the same.
        for d in 0..range {
            let number = from.number + d;
            if (wanted >> (number % range)) % 2 == 1 {
                return Some(Place { at, number });
            }
            at = self.step(at, size)?;
        }
        None
    }
}
