//! The walk to a byte of a buffer.
ghost use Rattle.std.specs.Prelude.{◌≡◌, ℕ, ◌+◌, ◌-◌, ◌*◌, ◌/◌, ◌%◌, ◌^◌, ◌<◌, ◌≤◌, length, SomeIff};
ghost use Rattle.memory.specs.Walk.{word, entry, Lies, offset, page, page_count, walked};

use crate::buffer::{Buffer, Kind};

/// The size of a page in bytes.
pub const PAGE: usize = 4096;

/// A page number that no address has: the walk gives it for a byte without a place.
// No Option there: the public walk promises a pair for every byte, and may not begin to fail.
const NOWHERE: usize = 1 << 52;

/// Eight bytes of memory, the low one first; none where they are not all in memory.
fn word_at(memory: &[u8], at: usize) -> Option<u64>
    ensures { SomeIff result (at + 8 ≤ length memory.now) (word memory.now at) }
{
    let bytes = memory.get(at..)?.first_chunk()?;
    Some(u64::from_le_bytes(*bytes))
}

impl Buffer {
    /// Entry k of the page list at the address: its page number and its low 12 bits; none where it is not in the list's page of memory.
    pub(crate) fn entry(self, memory: &[u8], k: usize) -> Option<(usize, usize)>
        ensures { SomeIff result (Lies memory.now self.address k) (entry memory.now self.address k) }
    {
        let list = self.address as usize;
        if k >= 512 || list % PAGE + 8 * k + 8 > PAGE {
            return None;
        }
        let word = word_at(memory, list + 8 * k)? as usize;
        Some((word / PAGE, word % PAGE))
    }

    /// The offset of the first byte in its page.
    pub fn offset(self, memory: &[u8]) -> usize
        ensures value { result ≡ offset memory.now self }
        ensures small { result < 4096 }
    {
        match self.kind {
            Kind::Direct => self.address as usize % PAGE,
            Kind::Listed => self.entry(memory, 0).map_or(0, |(_, low)| low),
        }
    }

    /// The number of page k, from 0.
    fn page_at(self, memory: &[u8], k: usize) -> usize
        requires { k < 2 ^ 63 }
        ensures { result ≡ page memory.now self k }
    {
        match self.kind {
            Kind::Direct => self.address as usize / PAGE + k,
            Kind::Listed => self.entry(memory, k).map_or(NOWHERE, |(page, _)| page),
        }
    }

    /// The number of page k, from 0; one that no address has where the list has no such entry in its page.
    // Beside `page_at`, since every `u32` may be asked for, and the walk goes beyond them.
    pub fn page(self, memory: &[u8], k: u32) -> usize
        ensures { result ≡ page memory.now self k }
    {
        self.page_at(memory, k as usize)
    }

    /// How many pages its bytes lie in, the first of them at an offset in its page.
    fn pages_from(self, offset: usize) -> usize
        requires { offset < 4096 }
        ensures counted { result ≡ (offset + self.length + 4095) / 4096 }
        ensures small { result < 2 ^ 21 }
    {
        (offset + self.length as usize).div_ceil(PAGE)
    }

    /// How many pages its bytes lie in; of a page list, how many entries it has.
    pub fn page_count(self, memory: &[u8]) -> usize
        ensures counted { result ≡ page_count memory.now self }
        ensures small { result < 2 ^ 21 }
    {
        self.pages_from(self.offset(memory))
    }

    /// How many pages its bytes lie in where the address is theirs: a direct buffer's page count, without a look at memory.
    pub fn direct_pages(self) -> usize
        ensures counted { result ≡ (self.address % 4096 + self.length + 4095) / 4096 }
        ensures small { result < 2 ^ 21 }
    {
        self.pages_from(self.address as usize % PAGE)
    }

    /// The page number and the offset of a byte; without a place it has a page number that no address has.
    pub fn walk(self, memory: &[u8], byte: usize) -> (usize, usize)
        ensures { result ≡ walked memory.now self byte }
    {
        let reach = self.offset(memory) + byte % PAGE;
        (
            self.page_at(memory, byte / PAGE + reach / PAGE),
            reach % PAGE,
        )
    }
}
