//! Builds the devices of a scenario, each under its layers, side by side.
ghost use Rattle.std.specs.Prelude.{◌≡◌, IfOk, drop, slice_get};
ghost use Rattle.std.specs.Vec.Iter.{into_iter_items};
ghost use Rattle.player.specs.Building.{Built, Stands, StandInOrder};

use choice::Choice;
use devices::{Reader, Sink, Space};
use pile::{Covered, Pile, cover, stack};
use script::{Device, Kind};
use std::alloc::{AllocError, Global};

// A device as it was described.
fn build_function(heap: Global, kind: Kind) -> Result<Choice<Reader, Sink>, AllocError>
    ensures { IfOk result (λ f. Built kind f) }
{
    Ok(match kind {
        Kind::Reader(data, lengths) => Choice::First(Reader::new(data.into_bytes(heap)?, lengths)),
        Kind::Plain(bytes, packets) => {
            Choice::Second(Sink::plain(heap, Space { bytes, packets })?)
        }
        Kind::Gathering(bytes, packets) => {
            Choice::Second(Sink::gathering(heap, Space { bytes, packets })?)
        }
    })
}

/// A device under its layers, or none.
pub fn build_device(heap: Global, device: Option<Device>) -> Result<Covered, AllocError>
    ensures { IfOk result (λ d. Stands device d) }
{
    match device {
        Some(Device { kind, busy, loss }) => {
            Ok(cover(Some(build_function(heap, kind)?), busy, loss))
        }
        None => Ok(cover(None, 0, 0)),
    }
}

/// The devices of a scenario, in the order of their pipes; those past the fourth are left out.
pub fn build_pile(heap: Global, devices: Vec<Device>) -> Result<Pile, AllocError>
    ensures { IfOk result (λ p. StandInOrder devices.items p) }
{
    let mut rest = devices.into_iter();
    let mut next = || -> Result<Covered, AllocError>
        ensures device { IfOk result (λ d. Stands (slice_get (into_iter_items rest.entry) 0) d) }
        ensures left { into_iter_items rest.exit ≡ drop 1 (into_iter_items rest.entry) }
    { build_device(heap, rest.next()) };
    Ok(stack(next()?, next()?, next()?, next()?))
}
