//! Claiming the pages of a transfer: all of them, or none.
ghost use Rattle.std.specs.Prelude.{◌≡◌, ℕ, ◌+◌, ◌-◌, ◌*◌, ◌/◌, ◌%◌, ◌^◌, ◌<◌, ◌≤◌, length, None};
ghost use Rattle.owners.specs.Claims.{unclaimed, unclaimed_all, claim_buffer, claim, answer, after};
ghost use Rattle.owners.specs.Taken.{PagesTold};

use crate::naming::{name_count, named_page, naming_part};
use crate::table::{Owner, Owners};
use memory::Buffer;
use refusal::Refusal;

/// How many slots a set has.
const SLOTS: usize = 8;

impl Owners {
    /// Takes back the first `count` namings of a buffer, the last first.
    fn unclaim(&mut self, memory: &[u8], buffer: Buffer, count: u32)
        ensures { self.new.table ≡ unclaimed memory.now buffer count self.old.table }
    {
        for j in (0..count).rev() {
            self.mark(named_page(memory, buffer, j), None);
        }
    }

    /// Marks the pages of piece i; where one has an owner it is told, and the table is as it was.
    fn claim_buffer(
        &mut self,
        memory: &[u8],
        i: usize,
        buffer: Buffer,
        owner: Owner,
    ) -> Result<(), Refusal>
        ensures told { result ≡ answer (claim_buffer memory.now i buffer owner self.old.table) }
        ensures marked { self.new.table ≡ after self.old.table (claim_buffer memory.now i buffer owner self.old.table) }
    {
        let count = name_count(memory, buffer);
        for j in 0..count {
            let page = named_page(memory, buffer, j);
            if self.owner_at(page).is_some() {
                self.unclaim(memory, buffer, j);
                return Err(Refusal::PageTaken(naming_part(buffer, j).spot(i)));
            }
            self.mark(page, Some(owner));
        }
        Ok(())
    }

    /// Takes back the namings of pieces, the last piece first.
    fn unclaim_pieces(&mut self, memory: &[u8], pieces: &[Buffer])
        ensures { self.new.table ≡ unclaimed_all memory.now pieces.now (length pieces.now) self.old.table }
    {
        for piece in pieces.iter().rev() {
            let names = name_count(memory, *piece);
            self.unclaim(memory, *piece, names);
        }
    }

    /// Marks all pages of a transfer's pieces, the first of which stands at `first` and each later one in the next slot of its set; or none, where one has an owner or is named twice.
    pub fn claim(&mut self, memory: &[u8], pieces: &[Buffer], first: Owner) -> Result<(), Refusal>
        ensures told { result ≡ answer (claim memory.now first.set first.slot self.old.table pieces.now) }
        ensures marked { self.new.table ≡ after self.old.table (claim memory.now first.set first.slot self.old.table pieces.now) }
        ensures first { PagesTold memory.now self.old.table pieces.now result }
    {
        for (i, piece) in pieces.iter().enumerate() {
            let slot = ((first.slot as usize + i % SLOTS) % SLOTS) as u8;
            let owner = Owner { slot, ..first };
            // Not by `?`: what was marked is taken back before the refusal is passed on.
            if let Err(refusal) = self.claim_buffer(memory, i, *piece, owner) {
                self.unclaim_pieces(memory, &pieces[..i]);
                return Err(refusal);
            }
        }
        Ok(())
    }
}
