//! Where one stands in a text that is kept as bytes and message lengths.

/// A place between two packets.
#[derive(Clone, Copy)]
pub struct Cursor {
    /// The message that it stands in, by its index.
    pub message: usize,
    /// How many bytes of that message are gone.
    pub spent: usize,
    /// The first byte that is left.
    pub here: usize,
}

/// A packet of a term, and where it begins.
#[derive(Clone, Copy)]
pub struct Place {
    /// Where it begins.
    pub at: Cursor,
    /// Its packet number.
    pub number: usize,
}
