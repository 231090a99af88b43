//! Packets ahead of order, each in a slot of its own.
ghost use Rattle.std.specs.Prelude.{◌≡◌, ◌≤◌, length, IfOk, None};
ghost use Rattle.std.specs.Option.{option_map};

use link::Packet;
use std::alloc::{AllocError, Global};

/// How many slots there are: as many as the longest burst has packets.
const SLOTS: usize = 16;

/// Room for one packet, and the number of the packet that is in it, if there is one.
// The number stands beside the packet and not around it, since the room stays where it is: a packet put into an Option would write all its 3,584 bytes anew.
#[derive(Drop)]
pub struct Slot {
    number: Option<usize>,
    packet: Packet,
}

/// Room for packets ahead of order: packet j lies in slot j mod 16.
#[derive(Drop)]
pub struct Ahead {
    slots: Vec<Slot>,
    ghost sixteen: { length slots.items ≡ 16 },
}

impl Ahead {
    ghost use Rattle.devices.specs.Early.{kept_at, packets};

    /// Room for sixteen packets, with none in it.
    pub fn new(heap: Global) -> Result<Ahead, AllocError>
        ensures { IfOk result (λ a. packets a ≡ (λ k. None)) }
    {
        let mut slots = Vec::with_capacity(heap, SLOTS)?;
        for _ in 0..SLOTS {
            slots.push_reserved(Slot {
                number: None,
                packet: Packet::new(),
            });
        }
        Ok(Ahead { slots })
    }

    /// Packet j, if it is here.
    pub fn packet(&self, j: usize) -> Option<&[u8]>
        ensures { option_map (λ b. b.now) result ≡ packets self.now j }
    {
        let slot = &self.slots[j % SLOTS];
        (slot.number == Some(j)).then_some(slot.packet.bytes())
    }

    /// Keeps packet j, in place of any other of its slot.
    pub fn keep(&mut self, j: usize, bytes: &[u8])
        requires { length bytes.now ≤ 3584 }
        ensures { packets self.new ≡ kept_at j bytes.now (packets self.old) }
    {
        let slot = &mut self.slots[j % SLOTS];
        slot.packet.fill(bytes).unwrap();
        slot.number = Some(j);
    }

    /// Nothing is here.
    pub fn clear(&mut self)
        ensures { packets self.new ≡ (λ k. None) }
    {
        for slot in self.slots.iter_mut() {
            slot.number = None;
        }
    }
}
