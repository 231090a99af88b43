//! Sequence numbers on words of 32 bits: the word that a poll asks with, a word turned within its range, and the way to the first set bit.
#![tactic(auto)]

ghost use Rattle.window.specs.Wrap.{NumbersCount, PollsAim, VectorsTell};

pub mod word;

pub use word::{SequenceRange, low_bits};

/// The facts about wrapping numbers that a window rests on.
pub fn wrap_stands()
    ensures polls { PollsAim }
    ensures vectors { VectorsTell }
    ensures numbers { NumbersCount }
{}
