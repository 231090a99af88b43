//! Room for one packet.
use std::marker::Model;

pub mod holding;

/// The longest packet.
pub const LONGEST: usize = 3584;

/// More bytes than a packet can have.
#[derive(Clone, Copy, PartialEq, Eq, Debug)]
pub struct TooLong;

/// Room for one packet, seen as the bytes that it holds.
// No `ArrayVec`: it clears element by element, up to 3,584 steps for each packet beside its one copy. No `Vec`: making one can fail.
#[derive(Drop)]
pub struct Packet {
    room: [u8; LONGEST],
    length: usize,
}

impl Model for Packet {
    ghost use Rattle.std.specs.Prelude.{ℕ, ◌≤◌, List, take};

    ghost Value = { List ℕ };

    ghost view = { λ p. take p.length p.room };

    ghost invariant = { λ p. p.length ≤ 3584 };
}
