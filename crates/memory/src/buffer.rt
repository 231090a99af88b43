//! What a driver hands in: where the bytes of a piece lie, and how many there are.

/// How a buffer's address is meant.
#[derive(Clone, Copy, Debug, PartialEq, Eq)]
pub enum Kind {
    /// It is the address of the bytes themselves.
    Direct,
    /// It is the address of a page list.
    Listed,
}

/// The bytes of a piece: at an address, or in the pages that a list names.
// The kind stands beside the address, which is shown and compared whatever the kind.
#[derive(Clone, Copy, Debug, PartialEq, Eq)]
pub struct Buffer {
    pub kind: Kind,
    pub address: u64,
    pub length: u32,
}
