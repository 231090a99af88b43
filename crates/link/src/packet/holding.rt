//! What a packet's room holds, and how it is filled.
ghost use Rattle.std.specs.Prelude.{◌≡◌, ◌≤◌, [], length, OnOk, OnErr, is_ok, nat_le};

use crate::packet::{LONGEST, Packet, TooLong};

impl Packet {
    /// Room that holds no byte.
    pub fn new() -> Packet
        ensures { result ≡ [] }
    {
        Packet {
            room: [0; LONGEST],
            length: 0,
        }
    }

    /// What it holds.
    pub fn bytes(&self) -> &[u8]
        ensures value { result.now ≡ self.now }
        ensures fits { length result.now ≤ 3584 }
    {
        &self.room[..self.length]
    }

    /// Holds these bytes from now on. More than a packet can have are refused: then it holds what it held.
    pub fn fill(&mut self, bytes: &[u8]) -> Result<(), TooLong>
        ensures answer { is_ok result ≡ nat_le (length bytes.now) 3584 }
        ensures ok { OnOk result (self.new ≡ bytes.now) }
        ensures err { OnErr result (self.new ≡ self.old) }
    {
        let n = bytes.len();
        if n > LONGEST {
            return Err(TooLong);
        }
        self.room[..n].copy_from_slice(bytes);
        self.length = n;
        Ok(())
    }
}
