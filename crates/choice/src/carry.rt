//! A choice as a link: it means what the chosen link means, and passes every call to it.
ghost use Rattle.std.proofs.Common.{rules};
ghost use Rattle.link.specs.Meaning.{Restarts, Polls, Fetches, Sends, Collects};
ghost use Rattle.choice.specs.Cases.{by_case};
ghost use Rattle.choice.specs.Chosen.{chosen, Steps};

use crate::place::Choice;
use link::{Collected, Direction, Fetched, Link, Packet, PollAnswer, Window};

impl<X: Link, Y: Link> Link for Choice<X, Y> {
    ghost meaning = { λ s. chosen X.Link.meaning Y.Link.meaning s };

    ghost restarted = { λ s p w t. Steps (λ x y. X.Link.restarted x p w y) (λ x y. Y.Link.restarted x p w y) s t };

    ghost polled = { λ s p b a t. Steps (λ x y. X.Link.polled x p b a y) (λ x y. Y.Link.polled x p b a y) s t };

    ghost fetched = { λ s p i a t. Steps (λ x y. X.Link.fetched x p i a y) (λ x y. Y.Link.fetched x p i a y) s t };

    ghost sent = { λ s p n b t. Steps (λ x y. X.Link.sent x p n b y) (λ x y. Y.Link.sent x p n b y) s t };

    ghost collected = { λ s p a t. Steps (λ x y. X.Link.collected x p a y) (λ x y. Y.Link.collected x p a y) s t };

    ghost above = { Prim.search rules };

    ghost bounds = { Prim.search rules };

    ghost restarting = { λ s t p w. by_case X.Link.meaning Y.Link.meaning (λ x y. Restarts x w y) p _ _ (λ x y. X.Link.restarting x y p w) (λ x y. Y.Link.restarting x y p w) s t };

    ghost polling = { λ s t p b a. by_case X.Link.meaning Y.Link.meaning (λ x y. Polls x b a y) p _ _ (λ x y. X.Link.polling x y p b a) (λ x y. Y.Link.polling x y p b a) s t };

    ghost fetching = { λ s t p i a. by_case X.Link.meaning Y.Link.meaning (λ x y. Fetches x i a y) p _ _ (λ x y. X.Link.fetching x y p i a) (λ x y. Y.Link.fetching x y p i a) s t };

    ghost sending = { λ s t p n b. by_case X.Link.meaning Y.Link.meaning (λ x y. Sends x n b y) p _ _ (λ x y. X.Link.sending x y p n b) (λ x y. Y.Link.sending x y p n b) s t };

    ghost collecting = { λ s t p a. by_case X.Link.meaning Y.Link.meaning (λ x y. Collects x a y) p _ _ (λ x y. X.Link.collecting x y p a) (λ x y. Y.Link.collecting x y p a) s t };

    fn describe(&self, pipe: u8) -> Option<Direction> {
        match self {
            Choice::First(link) => link.describe(pipe),
            Choice::Second(link) => link.describe(pipe),
        }
    }

    fn restart(&mut self, pipe: u8, window: Window) {
        match self {
            Choice::First(link) => link.restart(pipe, window),
            Choice::Second(link) => link.restart(pipe, window),
        }
    }

    fn poll(&mut self, pipe: u8, wanted: u32) -> PollAnswer {
        match self {
            Choice::First(link) => link.poll(pipe, wanted),
            Choice::Second(link) => link.poll(pipe, wanted),
        }
    }

    fn fetch(&mut self, pipe: u8, offset: u8, into: &mut Packet) -> Fetched {
        match self {
            Choice::First(link) => link.fetch(pipe, offset, into),
            Choice::Second(link) => link.fetch(pipe, offset, into),
        }
    }

    fn send(&mut self, pipe: u8, number: u8, bytes: &[u8]) {
        match self {
            Choice::First(link) => link.send(pipe, number, bytes),
            Choice::Second(link) => link.send(pipe, number, bytes),
        }
    }

    fn collect(&mut self, pipe: u8) -> Collected {
        match self {
            Choice::First(link) => link.collect(pipe),
            Choice::Second(link) => link.collect(pipe),
        }
    }
}
