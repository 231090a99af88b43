//! Judging where the bytes of pieces lie.
ghost use Rattle.std.specs.Prelude.{◌≡◌, ℕ, ◌+◌, ◌-◌, ◌*◌, ◌/◌, ◌%◌, ◌^◌, ◌<◌, ◌≤◌, length};
ghost use Rattle.memory.specs.Judge.{size_verdict, entry_verdict, list_verdict, buffer_verdict, pieces_from, spot_of};
ghost use Rattle.memory.specs.Faults.{PlacesTold};

use crate::buffer::{Buffer, Kind};
use crate::pages::PAGE;
use refusal::{Refusal, Spot};

/// The length of the longest piece.
const LONGEST: u32 = 1048575;

/// An entry names no page of memory, or has an offset that only the first may have.
#[derive(Clone, Copy, Debug, PartialEq, Eq)]
pub struct BadEntry;

/// What of a piece is at fault.
// An enum and no Option of an entry, since it is an error: with None nothing would be at fault.
#[derive(Clone, Copy, Debug, PartialEq, Eq)]
pub enum Part {
    /// Its own address, length or page.
    Whole,
    /// An entry of its page list, counted from 0.
    Entry(usize),
}

impl Part {
    /// Where the part is, as a refusal points at it, given the number of its piece.
    pub fn spot(self, piece: usize) -> Spot
        ensures { result ≡ spot_of piece self }
    {
        match self {
            Part::Whole => Spot::Piece(piece),
            Part::Entry(k) => Spot::Entry(piece, k),
        }
    }
}

/// Refuses memory that has not exactly so many pages.
pub fn judge_size(memory: &[u8], pages: usize) -> Result<(), Refusal>
    ensures { result ≡ size_verdict memory.now pages }
{
    let size = memory.len();
    if size % PAGE > 0 || size / PAGE != pages {
        return Err(Refusal::WrongSize);
    }
    Ok(())
}

impl Buffer {
    /// Judges entry k of a page list.
    fn judge_entry(self, memory: &[u8], k: usize) -> Result<(), BadEntry>
        ensures { result ≡ entry_verdict memory.now self.address k }
    {
        let (page, low) = self.entry(memory, k).ok_or(BadEntry)?;
        if page >= memory.len() / PAGE || k > 0 && low > 0 {
            return Err(BadEntry);
        }
        Ok(())
    }

    /// Judges a page list: first where it stands, then its entries in turn, each fault told with the entry's number.
    #[tactic(auto, using(crate::proofs::Judging::entries_step))]
    fn judge_list(self, memory: &[u8]) -> Result<(), Part>
        ensures { result ≡ list_verdict memory.now self }
    {
        let list = self.address as usize;
        if list % 8 > 0 || list >= memory.len() {
            return Err(Part::Whole);
        }
        let count = self.page_count(memory);
        if list % PAGE + 8 * count > PAGE {
            return Err(Part::Whole);
        }
        for k in 0..count {
            self.judge_entry(memory, k).map_err(|_| Part::Entry(k))?;
        }
        Ok(())
    }

    /// Judges one buffer by itself.
    pub fn judge(self, memory: &[u8]) -> Result<(), Part>
        ensures { result ≡ buffer_verdict memory.now self }
    {
        if self.length > LONGEST {
            return Err(Part::Whole);
        }
        if self.length == 0 {
            return Ok(());
        }
        match self.kind {
            Kind::Direct => {
                let length = self.length as usize;
                let end = (self.address as usize).checked_add(length);
                if length > PAGE || end.is_none_or(|end| end > memory.len()) {
                    return Err(Part::Whole);
                }
                Ok(())
            }
            Kind::Listed => self.judge_list(memory),
        }
    }
}

/// Judges the pieces of a transfer in the order given; the first fault is told, with the number of its piece.
#[tactic(auto, using(crate::proofs::Judging::pieces_step, crate::proofs::Telling::places_told))]
pub fn judge_pieces(memory: &[u8], pieces: &[Buffer]) -> Result<(), Refusal>
    ensures verdict { result ≡ pieces_from memory.now 0 pieces.now }
    ensures first { PlacesTold memory.now pieces.now result }
{
    for (i, piece) in pieces.iter().enumerate() {
        piece
            .judge(memory)
            .map_err(|part| Refusal::BadPlace(part.spot(i)))?;
    }
    Ok(())
}
