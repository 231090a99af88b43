//! The calls on a notice buffer: making one, switching on, an arriving notice, taking the oldest.
ghost use Rattle.std.specs.Prelude.{◌≡◌};
ghost use Rattle.notices.specs.Boards.{board, Made, LentTo, switched, arriving, arrived, taking, taken};
ghost use Rattle.notices.specs.Said.{said};

use crate::block::{BUFFER, clear_valid, write_block};
use crate::board::Notices;
use crate::notice::Notice;
use refusal::Refusal;
use ring::Ring;

// `lent` stands at each call: of a struct that holds a `&mut` the language asks it of each function, and an invariant cannot speak of before and after.
impl<'a> Notices<'a> {
    /// A notice buffer over 4,096 lent bytes: zeroed, off, from block 0.
    pub fn new(buffer: &'a mut [u8]) -> Result<Notices<'a>, Refusal>
        ensures value { Made buffer.old result }
        ensures lent { LentTo buffer.entry.ghost_name result }
    {
        if buffer.len() != BUFFER {
            return Err(Refusal::WrongSize);
        }
        buffer.fill(0);
        Ok(Notices {
            buffer,
            ring: Ring::new(),
            on: false,
            overflow: false,
        })
    }

    /// Switches notices on and clears the overflow mark.
    pub fn switch_on(&mut self)
        ensures after { board self.new ≡ switched (board self.old) }
        ensures lent { self.new.buffer.ghost_name ≡ self.old.buffer.ghost_name }
    {
        self.on = true;
        self.overflow = false;
    }
}

impl Notices<'_> {
    /// A notice arrives: the number of its block, or why it is refused.
    pub fn arrive(&mut self, notice: Notice<'_>) -> Result<usize, Refusal>
        ensures answer { result ≡ arriving (board self.old) (said notice.entry) }
        ensures after { board self.new ≡ arrived (board self.old) (said notice.entry) }
        ensures lent { self.new.buffer.ghost_name ≡ self.old.buffer.ghost_name }
    {
        if !notice.fits() {
            return Err(Refusal::BadNotice);
        }
        if !self.on {
            return Err(Refusal::NoticesOff);
        }
        let Some(block) = self.ring.take() else {
            self.on = false;
            self.overflow = true;
            return Err(Refusal::NoticesFull);
        };
        write_block(self.buffer, block, &notice.block());
        Ok(block)
    }

    /// Takes the oldest notice: the number of its block.
    pub fn take(&mut self) -> Result<usize, Refusal>
        ensures answer { result ≡ taking (board self.old) }
        ensures after { board self.new ≡ taken (board self.old) }
        ensures lent { self.new.buffer.ghost_name ≡ self.old.buffer.ghost_name }
    {
        let oldest = self.ring.release().ok_or(Refusal::NothingThere)?;
        clear_valid(self.buffer, oldest);
        Ok(oldest)
    }
}
