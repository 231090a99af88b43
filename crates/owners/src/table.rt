//! The table of page owners.
ghost use Rattle.std.specs.Prelude.{◌≡◌, length, replicate, None, slice_index_or, slice_set};

/// Who owns a page: the piece in a slot of a set.
#[derive(Clone, Copy, Debug, PartialEq, Eq)]
pub struct Owner {
    pub set: u8,
    pub slot: u8,
}

/// How many pages the table has room for.
const PAGES: usize = 4096;

/// The owner of each page of memory.
#[derive(Drop)]
pub struct Owners {
    pub table: [Option<Owner>; PAGES],
}

impl Owners {
    /// No page has an owner.
    pub fn new() -> Owners
        ensures { result.table ≡ replicate 4096 None }
    {
        Owners {
            table: [None; PAGES],
        }
    }

    /// The owner of a page; none past the table's end.
    pub(crate) fn owner_at(&self, page: usize) -> Option<Owner>
        ensures { result ≡ slice_index_or self.now.table page None }
    {
        *self.table.get(page)?
    }

    /// Sets the owner of a page; past the table's end nothing.
    // By index: what is written through `get_mut` of an array is not known to a proof.
    pub(crate) fn mark(&mut self, page: usize, owner: Option<Owner>)
        ensures { self.new.table ≡ slice_set self.old.table page owner }
    {
        if page < self.table.len() {
            self.table[page] = owner;
        }
    }
}
