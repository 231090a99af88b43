//! The words of a line, one after another.
ghost use Rattle.std.specs.Prelude.{◌≡◌, length};
ghost use Rattle.std.specs.Iterator.{at_most};
ghost use Rattle.std.specs.Option.{option_map};
ghost use Rattle.lexer.specs.Parts.{uncommented, first_word, after_word};

use crate::parts::{cut_at, is_blank};

// The line without its comment.
pub(crate) fn cut_comment(line: &[u8]) -> &[u8]
    ensures { result.now ≡ uncommented line.now }
{
    cut_at(line, |byte| byte == b'#').0
}

/// What is still to be read of a line, word by word.
#[derive(Clone, Copy)]
pub struct Words<'a> {
    rest: &'a [u8],
}

impl<'a> Words<'a> {
    /// The words of a line, without its comment.
    pub fn new(line: &'a [u8]) -> Words<'a>
        ensures { result.rest.now ≡ uncommented line.now }
    {
        Words {
            rest: cut_comment(line),
        }
    }
}

impl<'a> Iterator for Words<'a> {
    type Item = &'a [u8];

    ghost next_gives = { λ s word t. (option_map (λ w. w.now) word ≡ first_word s.rest.now) × (t.rest.now ≡ after_word s.rest.now) };

    ghost remaining = { λ s. at_most (length s.rest.now) };

    fn next(&mut self) -> Option<&'a [u8]> {
        let (_, text) = cut_at(self.rest, |byte| !is_blank(byte));
        let (word, rest) = cut_at(text, is_blank);
        self.rest = rest;
        (!word.is_empty()).then_some(word)
    }
}
