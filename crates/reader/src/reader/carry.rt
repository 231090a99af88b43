//! The reader as a link.
ghost use Rattle.reader.specs.Readers.{ReaderCollected, ReaderFetched, ReaderPolled, ReaderRestarted, ReaderSent, pipe_of};
ghost use Rattle.link.specs.Meaning.{inward, solo};
ghost use Rattle.link.specs.Numbered.{numbers_of};
ghost use Rattle.link.proofs.Solo.{above_one};
ghost use Rattle.reader.specs.Pipes.{restart_law, poll_law, fetch_law, send_law, collect_law, bounds_reader};

use crate::reader::Reader;
use link::{Collected, Direction, Fetched, Link, Packet, PollAnswer, SoundWindow, Window};

impl Link for Reader {
    ghost meaning = { λ s. solo (inward (pipe_of s)) };

    ghost restarted = { λ s p w t. ReaderRestarted (pipe_of s) p w (pipe_of t) };

    ghost polled = { λ s p b a t. ReaderPolled (pipe_of s) p b a (pipe_of t) };

    ghost fetched = { λ s p i a t. ReaderFetched (pipe_of s) p i a (pipe_of t) };

    ghost sent = { λ s p n b t. ReaderSent (pipe_of s) p n b (pipe_of t) };

    ghost collected = { λ s p a t. ReaderCollected (pipe_of s) p a (pipe_of t) };

    ghost above = { λ s p h. above_one _ p h };

    ghost bounds = { λ s p. bounds_reader (numbers_of s.window) s.text.bytes.items s.text.lengths.items s.start s.place.number s.text.few s.text.short p };

    ghost restarting = { λ s t p w h. restart_law _ _ p w h };

    ghost polling = { λ s t p b a h. poll_law _ _ p b a h };

    ghost fetching = { λ s t p i a h. fetch_law _ _ p i a h };

    ghost sending = { λ s t p n b h. send_law _ _ p n b h };

    ghost collecting = { λ s t p a h. collect_law _ _ p a h.0 h.1 };

    fn describe(&self, pipe: u8) -> Option<Direction> {
        (pipe == 0).then_some(Direction::Inward)
    }

    fn restart(&mut self, pipe: u8, window: Window) {
        match SoundWindow::new(window) {
            Some(window) if pipe == 0 => {
                self.window = Some(window);
                self.start = self.place.at;
                self.place.number = 0;
            }
            _ => {}
        }
    }

    fn poll(&mut self, pipe: u8, wanted: u32) -> PollAnswer {
        let window = match self.window {
            Some(window) if pipe == 0 => window,
            _ => return PollAnswer::Stall,
        };
        let Some(found) = self.text.seek(window, self.place, wanted) else {
            return PollAnswer::Silence;
        };
        self.place = found;
        if found.at.message < self.text.count() {
            PollAnswer::Data
        } else {
            PollAnswer::NotReady
        }
    }

    fn fetch(&mut self, pipe: u8, offset: u8, into: &mut Packet) -> Fetched {
        match self.packet(offset) {
            Some(packet) if pipe == 0 => {
                into.fill(packet).unwrap();
                Fetched::Packet
            }
            _ => Fetched::Lost,
        }
    }

    fn send(&mut self, _pipe: u8, _number: u8, _bytes: &[u8]) {}

    fn collect(&mut self, _pipe: u8) -> Collected {
        Collected::Stall
    }
}
