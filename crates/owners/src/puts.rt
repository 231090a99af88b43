//! Bytes put to pages that nobody owns.
ghost use Rattle.std.specs.Prelude.{◌≡◌, ℕ, ◌+◌, ◌-◌, ◌*◌, ◌/◌, ◌%◌, ◌^◌, ◌<◌, ◌≤◌, length};
ghost use Rattle.owners.specs.Puts.{all_free, put_verdict, put_memory, PutTold};

use crate::table::Owners;
use memory::{PAGE, judge_size};
use refusal::{Refusal, Spot};

impl Owners {
    /// Whether the pages from `first` to before `end` have no owner.
    fn all_free(&self, first: usize, end: usize) -> bool
        ensures { result ≡ all_free self.now.table first (end - first) }
    {
        (first..end).all(|page| self.owner_at(page).is_none())
    }

    /// Writes bytes to pages that nobody owns, all or none.
    pub fn put(
        &self,
        memory: &mut [u8],
        pages: usize,
        address: u64,
        bytes: &[u8],
    ) -> Result<(), Refusal>
        ensures told { result ≡ put_verdict memory.old pages self.now.table address (length bytes.now) }
        ensures stored { memory.new ≡ put_memory result memory.old address bytes.now }
        ensures law { PutTold memory.old pages self.now.table address (length bytes.now) result }
    {
        judge_size(memory, pages)?;
        if bytes.is_empty() {
            return Ok(());
        }
        let from = address as usize;
        let end = from
            .checked_add(bytes.len())
            .filter(|end| *end <= memory.len())
            .ok_or(Refusal::BadPlace(Spot::Call))?;
        if !self.all_free(from / PAGE, end.div_ceil(PAGE)) {
            return Err(Refusal::PageTaken(Spot::Call));
        }
        memory[from..end].copy_from_slice(bytes);
        Ok(())
    }
}
