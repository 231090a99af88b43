//! The notice buffer as a record over the buffer that the caller lends.
ghost use Rattle.std.specs.Prelude.{◌≡◌, length};

use ring::Ring;

/// A notice buffer: the lent bytes, 64 blocks, the order of the untaken blocks, whether notices are on, and the overflow mark.
#[derive(Drop)]
pub struct Notices<'a> {
    pub(crate) buffer: &'a mut [u8],
    pub(crate) ring: Ring<64>,
    // Two marks, as the definitions of the calls have them: an enum of the three states would be taken apart again in each look.
    pub(crate) on: bool,
    pub(crate) overflow: bool,
    ghost whole: { length buffer.now ≡ 4096 },
}
