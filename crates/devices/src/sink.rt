//! A sink: one outward pipe that keeps packets in order, and perhaps ahead of order.
ghost use Rattle.std.specs.Prelude.{◌≡◌, length, None};
ghost use Rattle.link.specs.Numbered.{numbers_of};
ghost use Rattle.devices.specs.Early.{early_of};
ghost use Rattle.devices.specs.Stored.{most_of, space_of, taken_in};
ghost use Rattle.devices.specs.Waiting.{AllWait};

pub mod carry;
pub mod keep;
pub mod look;

use crate::ahead::Ahead;
use crate::since::Since;
use crate::store::Store;
use link::SoundWindow;

/// One outward pipe: a plain sink keeps packets in order only, a gathering sink also packets ahead of order, in the room that it has for them.
#[derive(Drop)]
pub struct Sink {
    store: Store,
    ahead: Option<Ahead>,
    window: Option<SoundWindow>,
    since: Since,
    ghost waiting: { AllWait (numbers_of window) (taken_in store) (space_of store) (most_of store) (early_of ahead) },
    ghost past: { early_of ahead (length (taken_in store)) ≡ None },
}
