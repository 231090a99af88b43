//! A sink as a link.
ghost use Rattle.devices.specs.Sinking.{SinkCollected, SinkFetched, SinkPolled, SinkRestarted, SinkSent};
ghost use Rattle.devices.specs.Sinks.{sink_of};
ghost use Rattle.link.specs.Meaning.{outward, solo};
ghost use Rattle.link.proofs.Solo.{above_one, bounds_one};
ghost use Rattle.devices.specs.Bounds.{out_bounds};
ghost use Rattle.devices.specs.Laws.{restart_law, poll_law, fetch_law, send_law, collect_law};

use crate::since::Since;
use crate::sink::Sink;
use link::{Collected, Direction, Fetched, Link, Packet, PollAnswer, SoundWindow, Window};
use std::mem;

impl Link for Sink {
    ghost meaning = { λ s. solo (outward (sink_of s).out) };

    ghost restarted = { λ s p w t. SinkRestarted (sink_of s) p w (sink_of t) };

    ghost polled = { λ s p b a t. SinkPolled (sink_of s) p b a (sink_of t) };

    ghost fetched = { λ s p i a t. SinkFetched (sink_of s) p i a (sink_of t) };

    ghost sent = { λ s p n b t. SinkSent (sink_of s) p n b (sink_of t) };

    ghost collected = { λ s p a t. SinkCollected (sink_of s) p a (sink_of t) };

    ghost above = { λ s p h. above_one _ p h };

    ghost bounds = { λ s p. bounds_one _ (out_bounds s) p };

    ghost restarting = { λ s t p w h. restart_law _ _ p w h };

    ghost polling = { λ s t p b a h. poll_law _ _ p b a h };

    ghost fetching = { λ s t p i a h. fetch_law _ _ p i a h };

    ghost sending = { λ s t p n b h. send_law _ _ p n b h };

    ghost collecting = { λ s t p a h. collect_law _ _ p a h };

    fn describe(&self, pipe: u8) -> Option<Direction> {
        (pipe == 0).then_some(Direction::Outward)
    }

    fn restart(&mut self, pipe: u8, window: Window) {
        match SoundWindow::new(window) {
            Some(window) if pipe == 0 => {
                self.store.clear();
                if let Some(ahead) = &mut self.ahead {
                    ahead.clear();
                }
                self.window = Some(window);
                self.since = Since::Nothing;
            }
            _ => {}
        }
    }

    fn poll(&mut self, _pipe: u8, _wanted: u32) -> PollAnswer {
        PollAnswer::Stall
    }

    fn fetch(&mut self, _pipe: u8, _offset: u8, _into: &mut Packet) -> Fetched {
        Fetched::Lost
    }

    fn send(&mut self, pipe: u8, number: u8, bytes: &[u8]) {
        if pipe == 0 {
            self.receive(number, bytes);
        }
    }

    fn collect(&mut self, pipe: u8) -> Collected {
        let window = match self.window {
            Some(window) if pipe == 0 => window,
            _ => return Collected::Stall,
        };
        match mem::replace(&mut self.since, Since::Nothing) {
            Since::Lacking => Collected::NotReady,
            Since::Nothing | Since::Otherwise => Collected::Vector(self.vector(window)),
        }
    }
}
