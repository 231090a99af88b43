//! Cuts a text into parts.
ghost use Rattle.std.specs.Prelude.{◌≡◌, ℕ, Bool, take, drop};
ghost use Rattle.std.specs.Option.{option_map};
ghost use Rattle.std.specs.List.{position_or_len};
ghost use Rattle.lexer.specs.Parts.{Answers, blank, parted, stops};

/// Where a part of the text ends.
#[derive(Clone, Copy)]
pub enum Stop {
    /// At this byte.
    At(u8),
    /// After a word.
    Blank,
    /// Before a word.
    Word,
}

impl Stop {
    // Whether a part ends at this byte.
    fn ends(self, byte: u8) -> bool
        ensures { result ≡ stops self byte }
    {
        match self {
            Stop::At(mark) => byte == mark,
            Stop::Blank => is_blank(byte),
            Stop::Word => !is_blank(byte),
        }
    }
}

// Whether the byte parts words.
pub(crate) fn is_blank(byte: u8) -> bool
    ensures { result ≡ blank byte }
{
    matches!(byte, b' ' | b'\t' | b'\r')
}

/// What comes before the first byte at which a part ends, and what after it, if there is one.
pub fn part_at(text: &[u8], stop: Stop) -> Option<(&[u8], &[u8])>
    ensures { option_map (λ p. (p.0.now, p.1.now)) result ≡ parted stop text.now }
{
    let at = text.iter().position(|byte| stop.ends(*byte))?;
    Some((&text[..at], &text[at + 1..]))
}

// What comes before the first byte for which `ends` answers true, and all from there on.
pub(crate) fn cut_at<F: Fn(u8) -> bool>(text: &[u8], ends: F) -> (&[u8], &[u8])
    requires { F.IsAlwaysCallable ends }
    ensures { (test : ℕ → Bool) → Answers (F.post ends) test → (result.0.now ≡ take (position_or_len test text.now) text.now) × (result.1.now ≡ drop (position_or_len test text.now) text.now) }
{
    let at = text
        .iter()
        .position(|byte| ends(*byte))
        .unwrap_or(text.len());
    text.split_at(at)
}
