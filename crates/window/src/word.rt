//! Words of as many bits as there are sequence numbers.
ghost use Rattle.std.specs.Prelude.{◌≡◌, ℕ, ◌+◌, ◌-◌, ◌*◌, ◌/◌, ◌%◌, ◌^◌, ◌<◌, ◌≤◌, min};
ghost use Rattle.window.specs.Words.{Asks, Nearest, Shows, Turned, ahead, asked, held, shown, turned};

/// The lowest `count` bits of a word; the whole word if that is 32 or more.
pub fn low_bits(word: u32, count: u8) -> u32
    ensures { result ≡ word % 2 ^ count }
{
    if count >= 32 {
        return word;
    }
    word & ((1 << count as u32) - 1)
}

/// A sequence range as a word can hold it: at most 32 numbers, each with a bit of the word.
///
/// Where a call takes a number `first` or `next`, it means what the range leaves of it; with a range of 0 each call answers 0.
#[derive(Clone, Copy)]
pub struct SequenceRange {
    range: u8,
    ghost within: { range ≤ 32 },
}

// `word` and `first` come from two hands, a link's vector and the place of who reads it, so no struct holds them together.
impl SequenceRange {
    /// The range of so many numbers; above 32 it is taken as 32.
    pub fn new(range: u8) -> SequenceRange
        ensures { result.range ≡ held range }
    {
        SequenceRange {
            range: range.min(32),
        }
    }

    /// The bits of the range in a word, turned so that bit `first` comes first.
    pub fn turn(self, word: u32, first: u8) -> u32
        ensures is { result ≡ turned self.range first word }
        ensures bits { Turned self.range first word result }
    {
        let word = low_bits(word, self.range);
        if self.range == 0 {
            return 0;
        }
        let first = first % self.range;
        if first == 0 {
            return word;
        }
        let low = low_bits(word, first);
        (word >> first as u32) | (low << (self.range - first) as u32)
    }

    /// The word that asks for offsets: each offset i of the range whose bit is set in `wanted` stands for the number `next` + i, modulo the range.
    pub fn asking(self, wanted: u32, next: u8) -> u32
        ensures is { result ≡ asked self.range next wanted }
        ensures bits { Asks self.range next wanted result }
    {
        if self.range == 0 {
            return 0;
        }
        self.turn(wanted, self.range - next % self.range)
    }

    /// How many bits are clear before the first set one, from bit `first` on and round the bits of the range; the range itself if none is set.
    pub fn clear_before(self, word: u32, first: u8) -> u8
        ensures is { result ≡ ahead self.range first word }
        ensures nearest { Nearest self.range first word result }
    {
        self.turn(word, first)
            .trailing_zeros()
            .min(self.range as u32) as u8
    }

    /// The offsets below `count` whose bit is clear, counted from the first set bit past bit `first`: bit i of the answer stands for the i-th offset after that one.
    ///
    /// A count above the range is taken as the range.
    pub fn clear_after(self, word: u32, first: u8, count: u8) -> u32
        ensures is { result ≡ shown self.range first (min count self.range) word }
        ensures bits { Shows self.range first (min count self.range) word (ahead self.range first word) result }
    {
        let count = count.min(self.range);
        let gone = self.clear_before(word, first);
        if gone >= count {
            return 0;
        }
        low_bits(!(self.turn(word, first) >> gone as u32), count - gone)
    }
}
