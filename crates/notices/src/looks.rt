//! Looks at a notice buffer, which change nothing.
ghost use Rattle.std.specs.Prelude.{◌≡◌};
ghost use Rattle.std.specs.Option.{option_map};
ghost use Rattle.notices.specs.Boards.{board, seen};

use crate::block::BLOCK;
use crate::board::Notices;

impl Notices<'_> {
    /// Whether notices are on.
    pub fn is_on(&self) -> bool
        ensures { result ≡ (board self.now).on }
    {
        self.on
    }

    /// Whether a notice was discarded since notices were last switched on.
    pub fn overflowed(&self) -> bool
        ensures { result ≡ (board self.now).overflow }
    {
        self.overflow
    }

    /// A block's bytes, if there is such a block.
    pub fn block(&self, number: u8) -> Option<&[u8]>
        ensures { option_map (λ s. s.now) result ≡ seen (board self.now) number }
    {
        let at = number as usize * BLOCK;
        self.buffer.get(at..at + BLOCK)
    }
}
