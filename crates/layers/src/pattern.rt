//! 64 bits that are taken one after another.
ghost use Rattle.std.specs.Prelude.{◌≡◌, ◌<◌};

pub mod taking;

/// 64 bits that are taken one after another, from bit 0 and round again.
// No iterator: none of them is the last.
#[derive(Clone, Copy)]
pub struct Pattern {
    bits: u64,
    position: u8,
    ghost within: { position < 64 },
}

impl Pattern {
    /// The position of the bit that is taken next.
    pub fn position(&self) -> u8
        ensures { result ≡ self.now.position }
    {
        self.position
    }
}
