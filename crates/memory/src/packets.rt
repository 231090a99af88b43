//! Packets into and out of a buffer, by runs within a page.
ghost use Rattle.std.specs.Prelude.{◌≡◌, ℕ, ◌+◌, ◌-◌, ◌*◌, ◌/◌, ◌%◌, ◌^◌, ◌<◌, ◌≤◌, length, SomeIff};
ghost use Rattle.std.proofs.lemmas.List.Edits.{sets};
ghost use Rattle.memory.specs.Store.{gathered, Written, Read};

use crate::buffer::Buffer;
use crate::pages::PAGE;

/// The address of a place, a page number and an offset in the page; none where memory does not go so far.
// A place here and below is the pair of the walk, handed on as it came: a struct would be made of it and opened again at each call.
fn address(memory: &[u8], place: (usize, usize)) -> Option<usize>
    ensures { SomeIff result (place.0 * 4096 + place.1 < length memory.now) (place.0 * 4096 + place.1) }
{
    let (page, offset) = place;
    let from = page.checked_mul(PAGE)?.checked_add(offset)?;
    (from < memory.len()).then_some(from)
}

/// Copies bytes to a place, as far as memory goes.
fn write_run(memory: &mut [u8], place: (usize, usize), bytes: &[u8])
    ensures { memory.new ≡ sets memory.old (place.0 * 4096 + place.1) bytes.now }
{
    if let Some(from) = address(memory, place) {
        let count = bytes.len().min(memory.len() - from);
        memory[from..from + count].copy_from_slice(&bytes[..count]);
    }
}

/// Copies bytes from a place, as far as memory goes; zeros from there on.
fn read_run(memory: &[u8], place: (usize, usize), into: &mut [u8])
    ensures { into.new ≡ gathered (λ j. j) memory.now (place.0 * 4096 + place.1) (length into.old) }
{
    match address(memory, place) {
        Some(from) => {
            let count = into.len().min(memory.len() - from);
            into[..count].copy_from_slice(&memory[from..from + count]);
            into[count..].fill(0);
        }
        None => into.fill(0),
    }
}

impl Buffer {
    /// Writes a packet from byte `at` on. It lies in two pages at most; both are looked up before a byte is written.
    pub fn write(self, memory: &mut [u8], at: u32, bytes: &[u8])
        ensures { Written memory.old self at bytes.now memory.new }
    {
        if bytes.len() > PAGE {
            return;
        }
        let first = self.walk(memory, at as usize);
        let head = bytes.len().min(PAGE - first.1);
        let next = self.walk(memory, at as usize + head);
        write_run(memory, first, &bytes[..head]);
        write_run(memory, next, &bytes[head..]);
    }

    /// Reads a packet from byte `at` on, as many bytes as there is room for.
    pub fn read(self, memory: &[u8], at: u32, into: &mut [u8])
        ensures { Read memory.now self at into.old into.new }
    {
        if into.len() > PAGE {
            return;
        }
        let first = self.walk(memory, at as usize);
        let head = into.len().min(PAGE - first.1);
        let next = self.walk(memory, at as usize + head);
        read_run(memory, first, &mut into[..head]);
        read_run(memory, next, &mut into[head..]);
    }
}
