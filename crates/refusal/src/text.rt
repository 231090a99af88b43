//! What people read of a refusal.
ghost use Rattle.std.specs.Prelude.{◌≡◌, Some};
ghost use Rattle.refusal.specs.Texts.{words, pointed, written};

use crate::reason::{Refusal, Spot};
use std::error::Error;
use std::fmt;

impl Refusal {
    /// The condition in words.
    // A call of its own beside Display: a program may show the words without the number.
    pub fn words(self) -> &'static str
        ensures { result.now ≡ words self }
    {
        match self {
            Refusal::WrongSize => "memory, page count or notice buffer of wrong size",
            Refusal::NoSuchSet => "set above 31",
            Refusal::WrongState => "wrong state",
            Refusal::PipeUnavailable => "pipe absent or used by another set",
            Refusal::EndpointNumbers => "endpoint numbers",
            Refusal::PieceCount => "piece count",
            Refusal::SlotsShort => "too few free slots",
            Refusal::BadPlace(_) => "place or length outside the rules or the memory",
            Refusal::PageTaken(_) => "page owned, or named twice",
            Refusal::NothingThere => "nothing to reap or take",
            Refusal::BadPermit => "permit of another engine, or its set not stopped",
            Refusal::Unreaped => "unreaped pieces",
            Refusal::BadSlot => "slot empty, above 7, or listed",
            Refusal::BadNotice => "notice size or key",
            Refusal::NoticesOff => "notices off",
            Refusal::NoticesFull => "all 64 blocks untaken",
            Refusal::ImageSize => "image not 24 bytes",
        }
    }
}

impl fmt::Display for Spot {
    ghost output = { λ s. Some (pointed s) };

    fn fmt<W: fmt::Write>(&self, f: &mut fmt::Formatter<W>) -> fmt::Result {
        match *self {
            Spot::Call => Ok(()),
            Spot::Piece(piece) => write!(f, ", piece {piece}"),
            Spot::Entry(piece, entry) => write!(f, ", piece {piece}, entry {entry}"),
        }
    }
}

impl fmt::Display for Refusal {
    ghost output = { λ r. Some (written r) };

    fn fmt<W: fmt::Write>(&self, f: &mut fmt::Formatter<W>) -> fmt::Result {
        let number = u8::from(*self);
        let spot = self.spot();
        let words = self.words();
        write!(f, "refused {number}{spot}: {words}")
    }
}

impl Error for Refusal {}
