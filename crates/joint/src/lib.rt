//! Two links side by side.
#![tactic(auto)]

ghost use Rattle.std.specs.Prelude.{◌≡◌, None, refl};
ghost use Rattle.std.proofs.Common.{rules};
ghost use Rattle.joint.specs.Sides.{Counts, JoinsGapless, Steps, side, joint as sides};
ghost use Rattle.joint.specs.SidesLemmas.{sides_bounded, steps_meet};
ghost use Rattle.link.specs.declared.answers.Collected.TheVariants.{Stall as Halted};
ghost use Rattle.link.specs.declared.answers.PollAnswer.TheVariants.{Stall};
ghost use Rattle.link.specs.Meaning.{admits, absent, Restarts, Polls, Fetches, Sends, Collects};
ghost use Rattle.link.specs.Meets.{answered};
ghost use Rattle.link.specs.Optional.{still_absent};

use link::{Collected, Direction, Fetched, Link, Packet, PollAnswer, Window};

/// Two links side by side. The second's pipes are numbered after the first's; past 31 they are absent.
#[derive(Drop)]
pub struct Joint<A, B> {
    first: A,
    second: B,
    split: u8,
}

/// Whose a pipe is.
#[derive(Clone, Copy)]
enum Side {
    /// The first link's, under the same number.
    First,
    /// The second link's, under this number.
    Second(u8),
}

impl<X: Link, Y: Link> Joint<X, Y> {
    /// Sets two links side by side. It counts the first's pipes.
    pub fn new(first: X, second: Y) -> Joint<X, Y>
        ensures first { result.first ≡ first }
        ensures second { result.second ≡ second }
        ensures counts { Counts (X.Link.meaning first) result.split }
        ensures gapless { JoinsGapless result.split (X.Link.meaning first) (Y.Link.meaning second) }
    {
        let split = (0..32)
            .find(|&pipe| first.describe(pipe).is_none())
            .unwrap_or(32);
        Joint {
            first,
            second,
            split,
        }
    }

    /// The first link.
    pub fn first(&self) -> &X
        ensures { result.now ≡ self.now.first }
    {
        &self.first
    }

    /// The second link.
    pub fn second(&self) -> &Y
        ensures { result.now ≡ self.now.second }
    {
        &self.second
    }

    /// Whose a pipe is, if it is one of the first's numbers or the second describes it.
    fn side(&self, pipe: u8) -> Option<Side>
        ensures { result ≡ side self.now.split (Y.Link.meaning self.now.second) pipe }
    {
        if pipe < self.split {
            Some(Side::First)
        } else if pipe < 32 && self.second.describe(pipe - self.split).is_some() {
            Some(Side::Second(pipe - self.split))
        } else {
            None
        }
    }
}

impl<X: Link, Y: Link> Link for Joint<X, Y> {
    ghost meaning = { λ s. sides s.split (X.Link.meaning s.first) (Y.Link.meaning s.second) };

    ghost restarted = { λ s p w t. Steps Y.Link.meaning p (λ x y. X.Link.restarted x p w y) (λ q x y. Y.Link.restarted x q w y) (Unit {0}) s t };

    ghost polled = { λ s p b a t. Steps Y.Link.meaning p (λ x y. X.Link.polled x p b a y) (λ q x y. Y.Link.polled x q b a y) (a ≡ Stall) s t };

    ghost fetched = { λ s p i a t. Steps Y.Link.meaning p (λ x y. X.Link.fetched x p i a y) (λ q x y. Y.Link.fetched x q i a y) (a ≡ None) s t };

    ghost sent = { λ s p n b t. Steps Y.Link.meaning p (λ x y. X.Link.sent x p n b y) (λ q x y. Y.Link.sent x q n b y) (Unit {0}) s t };

    ghost collected = { λ s p a t. Steps Y.Link.meaning p (λ x y. X.Link.collected x p a y) (λ q x y. Y.Link.collected x q a y) (a ≡ Halted) s t };

    ghost above = { Prim.search rules };

    ghost bounds = { λ s p. sides_bounded s.split (X.Link.meaning s.first) (Y.Link.meaning s.second) p (λ q. X.Link.bounds s.first q) (λ q. Y.Link.bounds s.second q) };

    ghost restarting = { λ s t p w. steps_meet X.Link.meaning Y.Link.meaning (λ x y. Restarts x w y) p _ _ _ (λ x y. X.Link.restarting x y p w) (λ q x y. Y.Link.restarting x y q w) (λ u. still_absent (admits absent w)) s t };

    ghost polling = { λ s t p b a. steps_meet X.Link.meaning Y.Link.meaning (λ x y. Polls x b a y) p _ _ _ (λ x y. X.Link.polling x y p b a) (λ q x y. Y.Link.polling x y q b a) (answered (λ v. Polls absent b v absent) refl) s t };

    ghost fetching = { λ s t p i a. steps_meet X.Link.meaning Y.Link.meaning (λ x y. Fetches x i a y) p _ _ _ (λ x y. X.Link.fetching x y p i a) (λ q x y. Y.Link.fetching x y q i a) (answered (λ v. Fetches absent i v absent) (tt, refl)) s t };

    ghost sending = { λ s t p n b. steps_meet X.Link.meaning Y.Link.meaning (λ x y. Sends x n b y) p _ _ _ (λ x y. X.Link.sending x y p n b) (λ q x y. Y.Link.sending x y q n b) (λ u. refl) s t };

    ghost collecting = { λ s t p a. steps_meet X.Link.meaning Y.Link.meaning (λ x y. Collects x a y) p _ _ _ (λ x y. X.Link.collecting x y p a) (λ q x y. Y.Link.collecting x y q a) (answered (λ v. Collects absent v absent) (tt, refl)) s t };

    fn describe(&self, pipe: u8) -> Option<Direction> {
        // Not by `side`, which would ask the second link twice.
        if pipe < self.split {
            self.first.describe(pipe)
        } else if pipe < 32 {
            self.second.describe(pipe - self.split)
        } else {
            None
        }
    }

    fn restart(&mut self, pipe: u8, window: Window) {
        match self.side(pipe) {
            Some(Side::First) => self.first.restart(pipe, window),
            Some(Side::Second(own)) => self.second.restart(own, window),
            None => {}
        }
    }

    fn poll(&mut self, pipe: u8, wanted: u32) -> PollAnswer {
        match self.side(pipe) {
            Some(Side::First) => self.first.poll(pipe, wanted),
            Some(Side::Second(own)) => self.second.poll(own, wanted),
            None => PollAnswer::Stall,
        }
    }

    fn fetch(&mut self, pipe: u8, offset: u8, into: &mut Packet) -> Fetched {
        match self.side(pipe) {
            Some(Side::First) => self.first.fetch(pipe, offset, into),
            Some(Side::Second(own)) => self.second.fetch(own, offset, into),
            None => Fetched::Lost,
        }
    }

    fn send(&mut self, pipe: u8, number: u8, bytes: &[u8]) {
        match self.side(pipe) {
            Some(Side::First) => self.first.send(pipe, number, bytes),
            Some(Side::Second(own)) => self.second.send(own, number, bytes),
            None => {}
        }
    }

    fn collect(&mut self, pipe: u8) -> Collected {
        match self.side(pipe) {
            Some(Side::First) => self.first.collect(pipe),
            Some(Side::Second(own)) => self.second.collect(own),
            None => Collected::Stall,
        }
    }
}
