//! A layer over a link, which stops calls where a pattern says so, and passes the others down.
ghost use Rattle.std.specs.Prelude.{◌≡◌, None, true};
ghost use Rattle.std.proofs.Common.{rules};
ghost use Rattle.layers.specs.Layered.{Steps, steps_meet};
ghost use Rattle.layers.specs.Patterns.{Begins};
ghost use Rattle.link.specs.Meaning.{Pipe, Polls, Fetches, Sends, Collects};
ghost use Rattle.link.specs.Meets.{answered};
ghost use Rattle.link.proofs.Clauses.{lost_fetch, lost_send};

use crate::fault::Fault;
use crate::pattern::Pattern;
use link::{Collected, Direction, Fetched, Link, Packet, PollAnswer, Window};
use std::marker::PhantomData;

/// A layer over a link. Each call that takes a bit of the pattern stops at the layer if the bit is 1, and is answered as the fault says.
#[derive(Drop)]
pub struct Layer<L, F> {
    below: L,
    pattern: Pattern,
    fault: PhantomData<F>,
}

impl<L: Link, F: Fault> Layer<L, F> {
    /// The layer over a link, by a pattern of 64 bits.
    pub fn new(below: L, bits: u64) -> Layer<L, F>
        ensures below { result.below ≡ below }
        ensures pattern { Begins bits result.pattern }
    {
        Layer {
            below,
            pattern: Pattern::new(bits),
            fault: PhantomData,
        }
    }

    /// The link that it covers.
    pub fn below(&self) -> &L
        ensures { result.now ≡ self.now.below }
    {
        &self.below
    }

    /// The position of the bit that is taken next.
    pub fn position(&self) -> u8
        ensures { result ≡ self.now.pattern.position }
    {
        self.pattern.position()
    }
}

impl<L: Link, F: Fault> Link for Layer<L, F> {
    ghost meaning = { λ s. L.Link.meaning s.below };

    ghost restarted = { λ s p w t. L.Link.restarted s.below p w t.below × (t.pattern ≡ s.pattern) };

    ghost polled = { λ s p b a t. Steps true (λ x y. L.Link.polled x p b a y) (a ≡ F.POLLED) s t };

    ghost fetched = { λ s p i a t. Steps F.PACKETS (λ x y. L.Link.fetched x p i a y) (a ≡ None) s t };

    ghost sent = { λ s p n b t. Steps F.PACKETS (λ x y. L.Link.sent x p n b y) (Unit {0}) s t };

    ghost collected = { λ s p a t. Steps true (λ x y. L.Link.collected x p a y) (a ≡ F.COLLECTED) s t };

    ghost above = { Prim.search rules };

    ghost bounds = { λ s p. L.Link.bounds s.below p };

    ghost restarting = { λ s t p w h. L.Link.restarting s.below t.below p w h.0 };

    ghost polling = { λ s t p b a. steps_meet L.Link.meaning (λ x y. Polls x b a y) p true _ _ (λ x y. L.Link.polling x y p b a) (answered (λ v. (q : Pipe) → Polls q b v q) (λ q. F.poll_lawful q b)) s t };

    ghost fetching = { λ s t p i a. steps_meet L.Link.meaning (λ x y. Fetches x i a y) p F.PACKETS _ _ (λ x y. L.Link.fetching x y p i a) (answered (λ v. (q : Pipe) → Fetches q i v q) (λ q. lost_fetch q i)) s t };

    ghost sending = { λ s t p n b. steps_meet L.Link.meaning (λ x y. Sends x n b y) p F.PACKETS _ _ (λ x y. L.Link.sending x y p n b) (λ u q. lost_send q n b) s t };

    ghost collecting = { λ s t p a. steps_meet L.Link.meaning (λ x y. Collects x a y) p true _ _ (λ x y. L.Link.collecting x y p a) (answered (λ v. (q : Pipe) → Collects q v q) F.collect_lawful) s t };

    fn describe(&self, pipe: u8) -> Option<Direction> {
        self.below.describe(pipe)
    }

    fn restart(&mut self, pipe: u8, window: Window) {
        self.below.restart(pipe, window)
    }

    fn poll(&mut self, pipe: u8, wanted: u32) -> PollAnswer {
        if self.pattern.take() {
            F::POLLED
        } else {
            self.below.poll(pipe, wanted)
        }
    }

    fn fetch(&mut self, pipe: u8, offset: u8, into: &mut Packet) -> Fetched {
        if F::PACKETS && self.pattern.take() {
            Fetched::Lost
        } else {
            self.below.fetch(pipe, offset, into)
        }
    }

    fn send(&mut self, pipe: u8, number: u8, bytes: &[u8]) {
        if !(F::PACKETS && self.pattern.take()) {
            self.below.send(pipe, number, bytes)
        }
    }

    fn collect(&mut self, pipe: u8) -> Collected {
        if self.pattern.take() {
            F::COLLECTED
        } else {
            self.below.collect(pipe)
        }
    }
}
