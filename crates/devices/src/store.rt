//! Packets one after another: their bytes joined, and their lengths.
ghost use Rattle.std.specs.Prelude.{◌≡◌, ◌+◌, ◌^◌, ◌<◌, ◌≤◌, min, [], ◌∷◌, ◌++◌, length, IfOk, vec_capacity};
ghost use Rattle.link.specs.Terms.{bytes_of};
ghost use Rattle.reader.specs.Bytes.{flat, lengths_of, sum_of};

use crate::space::Space;
use std::alloc::{AllocError, Global};

/// Packets one after another, in space that is reserved when it is made: as many lengths as there is capacity for, and `space` bytes.
// Joined, with the lengths beside: a Vec for each packet would allocate after the store is made.
#[derive(Drop)]
pub struct Store {
    bytes: Vec<u8>,
    lengths: Vec<u16>,
    // Not the capacity for bytes: `extend_from_slice` says of that only that it does not shrink.
    space: usize,
    ghost whole: { sum_of lengths.items ≡ length bytes.items },
    ghost spaced: { space ≤ vec_capacity bytes },
    ghost inside: { length bytes.items ≤ space },
    ghost few: { space ≤ 2 ^ 24 },
    ghost short: { vec_capacity lengths ≤ 2 ^ 25 },
}

impl Store {
    ghost use Rattle.devices.specs.Taken.{lacks};
    ghost use Rattle.devices.specs.Stored.{most_of, space_of, taken_in};

    /// Space for so many bytes and lengths, within the bounds of a term.
    pub fn new(heap: Global, space: Space) -> Result<Store, AllocError>
        ensures taken { IfOk result (λ s. taken_in s ≡ []) }
        ensures space { IfOk result (λ s. space_of s ≡ min space.bytes (2 ^ 24)) }
        ensures most { IfOk result (λ s. most_of s ≡ min space.packets (2 ^ 25)) }
    {
        let bytes = space.bytes.min(1 << 24);
        Ok(Store {
            bytes: Vec::with_capacity(heap, bytes)?,
            lengths: Vec::with_capacity(heap, space.packets.min(1 << 25))?,
            space: bytes,
        })
    }

    /// How many packets there are.
    pub fn count(&self) -> usize
        ensures { result ≡ length (taken_in self.now) }
    {
        self.lengths.len()
    }

    /// The bytes of the packets, one after another.
    pub fn joined_bytes(&self) -> &[u8]
        ensures { result.now ≡ flat (taken_in self.now) }
    {
        self.bytes.as_slice()
    }

    /// The lengths of the packets.
    pub fn packet_lengths(&self) -> &[u16]
        ensures { result.now ≡ lengths_of (taken_in self.now) }
    {
        self.lengths.as_slice()
    }

    /// Whether packet j of so many bytes lacks space.
    pub fn lacks_space(&self, size: u16, j: usize, many: usize) -> bool
        requires from { length (taken_in self.now) ≤ j }
        requires near { j < length (taken_in self.now) + 16 }
        requires small { many ≤ 3584 }
        ensures { result ≡ lacks (space_of self.now) (most_of self.now) size (bytes_of (taken_in self.now)) (length (taken_in self.now)) j many }
    {
        let ahead = (j - self.count()) * size as usize;
        self.bytes.len() + ahead + many > self.space || j + 1 > self.lengths.capacity()
    }

    /// One more packet.
    // `lacks_space`, this call and `Ahead::keep` each ask for the bound of a length: the slice is handed on as it came, and a type around it would be made and opened at each call.
    pub fn append(&mut self, packet: &[u8])
        requires small { length packet.now ≤ 3584 }
        requires spaced { bytes_of (taken_in self.old) + length packet.now ≤ space_of self.old }
        requires counted { length (taken_in self.old) < most_of self.old }
        ensures taken { taken_in self.new ≡ taken_in self.old ++ packet.now ∷ [] }
        ensures space { space_of self.new ≡ space_of self.old }
        ensures most { most_of self.new ≡ most_of self.old }
    {
        self.bytes.extend_from_slice(packet).unwrap();
        self.lengths.push_reserved(packet.len() as u16);
    }

    /// All is free again.
    pub fn clear(&mut self)
        ensures taken { taken_in self.new ≡ [] }
        ensures space { space_of self.new ≡ space_of self.old }
        ensures most { most_of self.new ≡ most_of self.old }
    {
        self.bytes.clear();
        self.lengths.clear();
    }
}
