//! The space that is reserved for packets when a sink is made.

/// Space for so many bytes, and for the lengths of so many packets.
#[derive(Clone, Copy, Debug, PartialEq, Eq)]
pub struct Space {
    pub bytes: usize,
    pub packets: usize,
}
