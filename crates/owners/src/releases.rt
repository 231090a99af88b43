//! Releasing the pages of a piece.
ghost use Rattle.std.specs.Prelude.{◌≡◌, ℕ, ◌+◌, ◌-◌, ◌*◌, ◌/◌, ◌%◌, ◌^◌, ◌<◌, ◌≤◌, map, length};
ghost use Rattle.owners.specs.Claims.{freed, freed_pages, released};

use crate::table::{Owner, Owners};
use memory::{Buffer, Kind, PAGE};

/// What a page's owner is once `owner` lets it go.
fn kept(held: Option<Owner>, owner: Owner) -> Option<Owner>
    ensures { result ≡ freed owner held }
{
    held.filter(|holder| *holder != owner)
}

impl Owners {
    /// Lets go of the pages from `first` to before `end`.
    #[tactic(auto, using(crate::proofs::Freeing::freed_step))]
    fn release_run(&mut self, first: usize, end: usize, owner: Owner)
        ensures { self.new.table ≡ freed_pages owner self.old.table first (end - first) }
    {
        for page in first..end {
            self.mark(page, kept(self.owner_at(page), owner));
        }
    }

    /// Lets go of every page of an owner.
    fn release_all(&mut self, owner: Owner)
        ensures { self.new.table ≡ map (freed owner) self.old.table }
    {
        for held in self.table.iter_mut() {
            *held = kept(*held, owner);
        }
    }

    /// Lets go of a piece's pages: a direct one's by its address, a listed one's by a look at every page.
    pub fn release(&mut self, buffer: Buffer, owner: Owner)
        ensures { self.new.table ≡ released owner buffer self.old.table }
    {
        if buffer.length == 0 {
            return;
        }
        match buffer.kind {
            Kind::Direct => {
                let first = buffer.address as usize / PAGE;
                self.release_run(first, first + buffer.direct_pages(), owner);
            }
            Kind::Listed => self.release_all(owner),
        }
    }
}
