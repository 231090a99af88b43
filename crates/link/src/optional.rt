//! A link that may be lacking is a link: it passes every call to the link that is there, and has no pipe where there is none.
ghost use Rattle.std.specs.Prelude.{◌≡◌, None, refl};
ghost use Rattle.std.proofs.Common.{rules};
ghost use Rattle.link.specs.declared.answers.Collected.TheVariants.{Stall as Stalled};
ghost use Rattle.link.specs.declared.answers.PollAnswer.TheVariants.{Stall};
ghost use Rattle.link.specs.Meaning.{absent, Restarts, Polls, Fetches, Sends, Collects};
ghost use Rattle.link.specs.Meets.{answered};
ghost use Rattle.link.specs.Optional.{absent_restart, optional, Passes, passes_meets};

use crate::{Collected, Direction, Fetched, Link, Packet, PollAnswer, Window};

impl<L: Link> Link for Option<L> {
    ghost meaning = { λ s. optional L.Link.meaning s };

    ghost restarted = { λ s p w t. Passes (λ x y. L.Link.restarted x p w y) (Unit {0}) s t };

    ghost polled = { λ s p b a t. Passes (λ x y. L.Link.polled x p b a y) (a ≡ Stall) s t };

    ghost fetched = { λ s p i a t. Passes (λ x y. L.Link.fetched x p i a y) (a ≡ None) s t };

    ghost sent = { λ s p n b t. Passes (λ x y. L.Link.sent x p n b y) (Unit {0}) s t };

    ghost collected = { λ s p a t. Passes (λ x y. L.Link.collected x p a y) (a ≡ Stalled) s t };

    ghost above = { Prim.search rules };

    ghost bounds = { Prim.search rules };

    ghost restarting = { λ s t p w. passes_meets L.Link.meaning (λ x y. Restarts x w y) p _ _ (λ x y. L.Link.restarting x y p w) (absent_restart w) s t };

    ghost polling = { λ s t p b a. passes_meets L.Link.meaning (λ x y. Polls x b a y) p _ _ (λ x y. L.Link.polling x y p b a) (answered (λ v. Polls absent b v absent) refl) s t };

    ghost fetching = { λ s t p i a. passes_meets L.Link.meaning (λ x y. Fetches x i a y) p _ _ (λ x y. L.Link.fetching x y p i a) (answered (λ v. Fetches absent i v absent) (tt, refl)) s t };

    ghost sending = { λ s t p n b. passes_meets L.Link.meaning (λ x y. Sends x n b y) p _ _ (λ x y. L.Link.sending x y p n b) (λ u. refl) s t };

    ghost collecting = { λ s t p a. passes_meets L.Link.meaning (λ x y. Collects x a y) p _ _ (λ x y. L.Link.collecting x y p a) (answered (λ v. Collects absent v absent) (tt, refl)) s t };

    fn describe(&self, pipe: u8) -> Option<Direction> {
        self.as_ref()?.describe(pipe)
    }

    fn restart(&mut self, pipe: u8, window: Window) {
        if let Some(link) = self {
            link.restart(pipe, window)
        }
    }

    fn poll(&mut self, pipe: u8, wanted: u32) -> PollAnswer {
        match self {
            Some(link) => link.poll(pipe, wanted),
            None => PollAnswer::Stall,
        }
    }

    fn fetch(&mut self, pipe: u8, offset: u8, into: &mut Packet) -> Fetched {
        match self {
            Some(link) => link.fetch(pipe, offset, into),
            None => Fetched::Lost,
        }
    }

    fn send(&mut self, pipe: u8, number: u8, bytes: &[u8]) {
        if let Some(link) = self {
            link.send(pipe, number, bytes)
        }
    }

    fn collect(&mut self, pipe: u8) -> Collected {
        match self {
            Some(link) => link.collect(pipe),
            None => Collected::Stall,
        }
    }
}
