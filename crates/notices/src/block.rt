//! The blocks of a notice buffer: where one is written, and where its Valid bit is cleared.
ghost use Rattle.std.specs.Prelude.{◌≡◌, ◌<◌, length};
ghost use Rattle.notices.specs.Blocks.{cleared, with_block};

/// Bytes of a block.
pub const BLOCK: usize = 64;

/// Bytes of a notice buffer: 64 blocks.
pub const BUFFER: usize = 4096;

// Writes a block into the buffer.
pub(crate) fn write_block(buffer: &mut [u8], block: usize, bytes: &[u8; BLOCK])
    requires whole { length buffer.old ≡ 4096 }
    requires there { block < 64 }
    ensures { buffer.new ≡ with_block buffer.old block bytes.now }
{
    let at = block * BLOCK;
    buffer[at..at + BLOCK].copy_from_slice(bytes);
}

// Clears the Valid bit of a block.
pub(crate) fn clear_valid(buffer: &mut [u8], block: usize)
    requires whole { length buffer.old ≡ 4096 }
    requires there { block < 64 }
    ensures { buffer.new ≡ cleared buffer.old block }
{
    buffer[block * BLOCK + 3] %= 128;
}
