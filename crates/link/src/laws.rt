//! What holds of every link along any calls, each theorem on the contract of a function.
ghost use Rattle.link.specs.Cutting.{MessagesCut, RestsDrop};
ghost use Rattle.link.specs.Once.{AimOnce, KeptOnce, MeantOnce, VectorOnce};
ghost use Rattle.link.specs.Quiet.{QuietLawful};
ghost use Rattle.link.specs.Terms.{RestartBounded};
ghost use Rattle.link.specs.Steps.{DescribesAlike, StaysGapless};

use crate::Link;

/// A link always describes a pipe alike: no calls change its answer.
pub fn describes_alike<L: Link>()
    ensures { DescribesAlike L L.Link.meaning L.Link.restarted L.Link.polled L.Link.fetched L.Link.sent L.Link.collected }
{}

/// Pipes that are numbered without gaps stay so, whatever is called.
pub fn stays_gapless<L: Link>()
    ensures { StaysGapless L L.Link.meaning L.Link.restarted L.Link.polled L.Link.fetched L.Link.sent L.Link.collected }
{}

/// The clauses fix the aim of a Poll, the packet that a Send's number stands for, what keeping it leads to, and the vector of a Collect.
pub fn answers_fixed()
    ensures aim { AimOnce }
    ensures meant { MeantOnce }
    ensures kept { KeptOnce }
    ensures vector { VectorOnce }
{}

/// A message is cut into packets of the lengths that are said, which joined are the message; and after k packets just the others are left.
pub fn text_cut()
    ensures messages { MessagesCut }
    ensures rests { RestsDrop }
{}

/// Silence, NotReady, Stall, Lost and a Send that vanishes are lawful on every pipe, if they change nothing: a dead radio is a link.
pub fn quiet_lawful()
    ensures { QuietLawful }
{}

/// A Restart never breaks the bounds of a term: what is left of a text is no larger, and its packets are few at every packet size.
pub fn restart_bounded()
    ensures { RestartBounded }
{}
