//! Making a sink, and looking at what it took.
ghost use Rattle.devices.specs.Early.{early_of};
ghost use Rattle.devices.specs.Sinking.{unused};
ghost use Rattle.devices.specs.Sinks.{sink_of};
ghost use Rattle.reader.specs.Bytes.{flat, lengths_of};
ghost use Rattle.std.specs.Prelude.{◌≡◌, true, false, is_some, None, IfOk};

use crate::ahead::Ahead;
use crate::since::Since;
use crate::sink::Sink;
use crate::space::Space;
use crate::store::Store;
use std::alloc::{AllocError, Global};

impl Sink {
    /// A sink that keeps packet f only, with this space, of which as much counts as a term may have.
    /// All its memory is reserved here.
    pub fn plain(heap: Global, space: Space) -> Result<Sink, AllocError>
        ensures { IfOk result (λ s. sink_of s ≡ unused false space.bytes space.packets) }
    {
        Sink::unrestarted(heap, space, None)
    }

    /// A sink that keeps also packets ahead of order, with this space, of which as much counts as a term may have.
    /// All its memory is reserved here, also the room for a burst of early packets.
    pub fn gathering(heap: Global, space: Space) -> Result<Sink, AllocError>
        ensures { IfOk result (λ s. sink_of s ≡ unused true space.bytes space.packets) }
    {
        Sink::unrestarted(heap, space, Some(Ahead::new(heap)?))
    }

    // A sink before its first Restart, with this room for early packets, if any.
    fn unrestarted(heap: Global, space: Space, ahead: Option<Ahead>) -> Result<Sink, AllocError>
        requires { early_of ahead ≡ (λ k. None) }
        ensures { IfOk result (λ s. sink_of s ≡ unused (is_some ahead) space.bytes space.packets) }
    {
        Ok(Sink {
            store: Store::new(heap, space)?,
            ahead,
            window: None,
            since: Since::Nothing,
        })
    }

    /// The bytes of the packets taken in this term, one after another.
    pub fn taken_bytes(&self) -> &[u8]
        ensures { result.now ≡ flat (sink_of self.now).out.taken }
    {
        self.store.joined_bytes()
    }

    /// The lengths of the packets taken in this term, in their order.
    pub fn taken_lengths(&self) -> &[u16]
        ensures { result.now ≡ lengths_of (sink_of self.now).out.taken }
    {
        self.store.packet_lengths()
    }
}
