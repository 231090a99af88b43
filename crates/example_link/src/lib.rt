//! A small link of one's own: a lamp, which takes one packet of one byte in each term, and shows it.
#![tactic(auto)]

ghost use Rattle.std.specs.Prelude.{◌≡◌, ℕ, length, None};
ghost use Rattle.example_link.specs.Lamp.{CollectedLamp, FetchedLamp, PolledLamp, RestartedLamp, SentLamp, shown};
ghost use Rattle.link.specs.Numbered.{numbers_of, numbers_sound};
ghost use Rattle.link.specs.Meaning.{Vector, outward, solo};
ghost use Rattle.example_link.specs.Lamps.{send_law};
ghost use Rattle.example_link.specs.Seen.{lamp_of};
ghost use Rattle.std.proofs.Common.{rules};

use link::{Collected, Direction, Fetched, Link, Packet, PollAnswer, SoundWindow, Window};
use window::{SequenceRange, low_bits};

/// A lamp. Its pipe, number 0, is outward; a packet of one byte sets its brightness, once in a term.
#[derive(Drop)]
pub struct Lamp {
    window: Option<SoundWindow>,
    shows: Option<u8>,
}

impl Lamp {
    /// A dark lamp of which no term began.
    pub fn new() -> Lamp
        ensures window { result.window ≡ None }
        ensures shows { result.shows ≡ None }
    {
        Lamp {
            window: None,
            shows: None,
        }
    }

    /// The brightness that it shows, if any.
    pub fn shows(&self) -> Option<u8>
        ensures { result ≡ self.now.shows }
    {
        self.shows
    }

    /// How many packets it has taken in this term.
    fn taken(&self) -> u8
        ensures { result ≡ length (shown self.now.shows) }
    {
        u8::from(self.shows.is_some())
    }

    /// The vector: all numbers of the window, since nothing is early.
    fn vector(&self, window: SoundWindow) -> u32
        ensures { Vector window.window (length (shown self.now.shows)) (λ j. None) result }
    {
        let window = window.get();
        SequenceRange::new(window.range).asking(low_bits(u32::MAX, window.burst), self.taken())
    }
}

impl Link for Lamp {
    ghost meaning = { λ s. solo (outward (lamp_of s)) };

    ghost restarted = { λ s p w t. RestartedLamp (lamp_of s) p w (lamp_of t) };

    ghost polled = { λ s p b a t. PolledLamp (lamp_of s) a (lamp_of t) };

    ghost fetched = { λ s p i a t. FetchedLamp (lamp_of s) a (lamp_of t) };

    ghost sent = { λ s p n b t. SentLamp (lamp_of s) p n b (lamp_of t) };

    ghost collected = { λ s p a t. CollectedLamp (lamp_of s) p a (lamp_of t) };

    ghost above = { Prim.search rules };

    ghost bounds = { Prim.search rules };

    ghost restarting = { Prim.search rules };

    ghost polling = { Prim.search rules };

    ghost fetching = { Prim.search rules };

    ghost sending = { λ s t p n b h. send_law (numbers_of s.window) s.shows _ p n b (numbers_sound s.window) h };

    ghost collecting = { Prim.search rules };

    fn describe(&self, pipe: u8) -> Option<Direction> {
        (pipe == 0).then_some(Direction::Outward)
    }

    fn restart(&mut self, pipe: u8, window: Window) {
        match SoundWindow::new(window) {
            Some(window) if pipe == 0 => {
                *self = Lamp {
                    window: Some(window),
                    shows: None,
                }
            }
            _ => {}
        }
    }

    fn poll(&mut self, _pipe: u8, _wanted: u32) -> PollAnswer {
        PollAnswer::Stall
    }

    fn fetch(&mut self, _pipe: u8, _offset: u8, _into: &mut Packet) -> Fetched {
        Fetched::Lost
    }

    fn send(&mut self, pipe: u8, number: u8, bytes: &[u8]) {
        match *bytes {
            [brightness]
                if pipe == 0 && self.window.is_some() && self.shows.is_none() && number == 0 => {
                self.shows = Some(brightness);
            }
            _ => {}
        }
    }

    fn collect(&mut self, pipe: u8) -> Collected {
        match self.window {
            Some(window) if pipe == 0 => Collected::Vector(self.vector(window)),
            _ => Collected::Stall,
        }
    }
}
