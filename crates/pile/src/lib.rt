//! The pile of links that the program plays over: up to four devices side by side, each under a busy layer and a loss layer.
#![tactic(auto)]

ghost use Rattle.std.specs.Prelude.{◌≡◌};
ghost use Rattle.pile.specs.Piles.{covered, sink_at, sink_in};
ghost use Rattle.std.specs.Option.{option_map};
ghost use Rattle.layers.specs.Patterns.{Begins};

use choice::Choice;
use devices::{Reader, Sink};
use layers::{Busy, Joint, Loss};

/// A shipped device, or none.
pub type Function = Option<Choice<Reader, Sink>>;

/// A device under its two layers.
pub type Covered = Loss<Busy<Function>>;

/// Four devices side by side.
pub type Pile = Joint<Joint<Covered, Covered>, Joint<Covered, Covered>>;

/// A device under a busy layer, and that under a loss layer, with their patterns.
pub fn cover(function: Function, busy: u64, loss: u64) -> Covered
    ensures function { covered result ≡ function }
    ensures busy { Begins busy result.below.pattern }
    ensures loss { Begins loss result.pattern }
{
    Loss::new(Busy::new(function, busy), loss)
}

/// Four devices side by side, in this order; those that are none come last, so that the pipes have no gap.
pub fn stack(first: Covered, second: Covered, third: Covered, fourth: Covered) -> Pile
    ensures first { result.first.first ≡ first }
    ensures second { result.first.second ≡ second }
    ensures third { result.second.first ≡ third }
    ensures fourth { result.second.second ≡ fourth }
{
    Joint::new(Joint::new(first, second), Joint::new(third, fourth))
}

// The sink under the layers, if there is one.
fn sink_in(device: &Covered) -> Option<&Sink>
    ensures { option_map (λ s. s.now) result ≡ sink_in (covered device.now) }
{
    match device.below().below() {
        Some(Choice::Second(sink)) => Some(sink),
        Some(Choice::First(_)) | None => None,
    }
}

/// The sink at a pipe, if there is one: device k has pipe k.
pub fn sink_at(pile: &Pile, pipe: u8) -> Option<&Sink>
    ensures { option_map (λ s. s.now) result ≡ sink_at pile.now pipe }
{
    match pipe {
        0 => sink_in(pile.first().first()),
        1 => sink_in(pile.first().second()),
        2 => sink_in(pile.second().first()),
        3 => sink_in(pile.second().second()),
        _ => None,
    }
}
