//! The pages that a buffer names, in the order of naming.
ghost use Rattle.std.specs.Prelude.{◌≡◌, ℕ, ◌+◌, ◌-◌, ◌*◌, ◌/◌, ◌%◌, ◌^◌, ◌<◌, ◌≤◌, length};
ghost use Rattle.owners.specs.Naming.{names, named, part_of};

// Functions, since `Buffer` is of another crate: a trait for it alone would be no plainer, and a struct of memory and buffer would be made anew at each call.
use memory::{Buffer, Kind, PAGE, Part};

/// How many pages a buffer names.
pub(crate) fn name_count(memory: &[u8], buffer: Buffer) -> u32
    ensures counted { result ≡ names memory.now buffer }
    ensures small { result < 2 ^ 22 }
{
    if buffer.length == 0 {
        return 0;
    }
    let count = buffer.page_count(memory) as u32;
    match buffer.kind {
        Kind::Direct => count,
        Kind::Listed => count + 1,
    }
}

/// The page that a buffer names j-th, from 0: of a listed one first the list's own page.
pub(crate) fn named_page(memory: &[u8], buffer: Buffer, j: u32) -> usize
    ensures { result ≡ named memory.now buffer j }
{
    match (buffer.kind, j.checked_sub(1)) {
        (Kind::Direct, _) => buffer.page(memory, j),
        (Kind::Listed, None) => buffer.address as usize / PAGE,
        (Kind::Listed, Some(k)) => buffer.page(memory, k),
    }
}

/// The part of a buffer that names it.
pub(crate) fn naming_part(buffer: Buffer, j: u32) -> Part
    ensures { result ≡ part_of buffer j }
{
    match (buffer.kind, j.checked_sub(1)) {
        (Kind::Listed, Some(k)) => Part::Entry(k as usize),
        _ => Part::Whole,
    }
}
