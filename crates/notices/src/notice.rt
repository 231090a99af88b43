//! A notice, and what it looks like in its block of 64 bytes.
ghost use Rattle.std.specs.Prelude.{◌≡◌, ◌≤◌, length};
ghost use Rattle.notices.specs.Blocks.{block_of, fits, flags};
ghost use Rattle.notices.specs.Said.{said};

use crate::block::BLOCK;

/// A notice: where it comes from, its key if it is secure, and its bytes.
#[derive(Clone, Copy)]
pub struct Notice<'a> {
    pub source: u8,
    pub key: Option<u32>,
    pub bytes: &'a [u8],
}

// Byte 3 of a notice's block.
fn flag_byte(key: Option<u32>) -> u8
    ensures { result ≡ flags key }
{
    match key {
        Some(_) => 0xc0,
        None => 0x80,
    }
}

impl Notice<'_> {
    /// Whether it may stand in a block: 1 to 56 bytes, and a key below 2^24.
    pub fn fits(self) -> bool
        ensures { result ≡ fits self.entry.key self.entry.bytes.now }
    {
        (1..=56).contains(&self.bytes.len()) && self.key.is_none_or(|key| key < 1 << 24)
    }

    // The block of a notice that fits.
    pub(crate) fn block(self) -> [u8; BLOCK]
        requires { length self.bytes.now ≤ 56 }
        ensures { result ≡ block_of (said self.entry) }
    {
        let n = self.bytes.len();
        let number = self.key.unwrap_or(0);
        let mut block = [0u8; BLOCK];
        block[8..8 + n].copy_from_slice(self.bytes);
        block[0] = n as u8;
        block[2] = self.source;
        block[3] = flag_byte(self.key);
        block[4..7].copy_from_slice(&number.to_le_bytes()[..3]);
        block
    }
}
