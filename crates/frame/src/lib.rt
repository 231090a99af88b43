//! Theorems of the whole of memory: what is done to one piece leaves the others, and ownership is kept.
#![tactic(auto)]

ghost use Rattle.frame.specs.Frames.{Writes, Packets, ReadsBack, Puts, Reaps, Queues, Apart, Steady, Holders, Starts, Reads, Happens};

// Answers that only cite a lemma stay: with `using(..)` on the function, tried at six of these, `search` does not prove `returns` but at `worlds_happen`.

/// A packet written into one buffer leaves every other, and every list, as it was.
pub fn writes_are_framed()
    ensures { Writes }
{}

/// Packets written in a row leave every other buffer as it was.
pub fn packets_are_framed()
    ensures { Packets }
{}

/// What was written reads back.
pub fn packets_read_back()
    ensures { ReadsBack }
{}

/// Bytes put to pages that nobody owns leave every buffer and every list as it was.
pub fn puts_are_framed()
    ensures { Puts }
{}

/// A piece that is let go frees exactly its pages.
pub fn reaps_keep()
    ensures { Reaps }
{}

/// Pieces that are queued own what they name, and all others what they did.
pub fn queues_own()
    ensures { Queues }
{}

/// What is done for one set alters nothing of another.
pub fn sets_are_apart()
    ensures { Apart }
{}

/// What a buffer showed when its piece was queued, it shows until it is written into or let go.
pub fn buffers_are_steady()
    ensures { Steady }
{}

/// A page has an owner exactly if an unreaped piece names it, and then that piece is the owner.
pub fn owners_are_exact()
    ensures { Holders }
{}

/// Where nothing is held all is owned.
pub fn starts_owned()
    ensures { Starts }
{}

/// What is read is what the buffer shows.
pub fn reads_show()
    ensures { Reads }
{}

/// The premises of these theorems can be met.
#[tactic(auto, using(crate::proofs::Happening::happens))]
pub fn worlds_happen()
    ensures { Happens }
{}
