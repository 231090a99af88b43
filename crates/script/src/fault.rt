//! What can be wrong with a scenario's text.
ghost use Rattle.std.specs.Prelude.{◌≡◌, Some};
ghost use Rattle.script.specs.Faults.{texted, told};
ghost use Rattle.script.specs.declared.fault.Wrong.TheVariants.{NoMemory};

use std::alloc::{AllocError, AllocFailed};
use std::error::Error;
use std::fmt;

/// What is wrong with a line.
#[derive(Clone, Copy, PartialEq, Eq, Debug)]
pub enum Wrong {
    /// The line begins with no word of the language, or a word stands where another is asked for.
    UnknownWord,
    /// The line ends too early.
    MissingWord,
    /// The line goes on too long.
    ExtraWord,
    /// A number is malformed, or too large for its place.
    BadNumber,
    /// Bytes are malformed, or too many.
    BadData,
    /// There are blocks 0 to 63.
    NoSuchBlock,
    /// There are at most four devices.
    FifthDevice,
    /// An option is given twice, or before the last plain word.
    MisplacedOption,
    /// There is no sink at that pipe.
    NotASink,
    /// There was no memory to read the line.
    NoMemory,
}

/// A line that cannot be read: its number, from 1, and what is wrong.
#[derive(Clone, Copy, PartialEq, Eq, Debug)]
pub struct Fault {
    pub line: usize,
    pub wrong: Wrong,
}

impl Wrong {
    // The fault in words. Beside Display, since a derive of texts says nothing of what is written.
    fn words(self) -> &'static str
        ensures { result.now ≡ texted self }
    {
        match self {
            Wrong::UnknownWord => "unknown word",
            Wrong::MissingWord => "a word is missing",
            Wrong::ExtraWord => "a word too many",
            Wrong::BadNumber => "number malformed or too large",
            Wrong::BadData => "bytes malformed or too many",
            Wrong::NoSuchBlock => "block above 63",
            Wrong::FifthDevice => "a fifth device",
            Wrong::MisplacedOption => "an option given twice, or before the last plain word",
            Wrong::NotASink => "no sink at that pipe",
            Wrong::NoMemory => "no memory to read it",
        }
    }
}

impl fmt::Display for Wrong {
    ghost output = { λ w. Some (texted w) };

    fn fmt<W: fmt::Write>(&self, f: &mut fmt::Formatter<W>) -> fmt::Result {
        let words = self.words();
        write!(f, "{words}")
    }
}

impl fmt::Display for Fault {
    ghost output = { λ f. Some (told f) };

    fn fmt<W: fmt::Write>(&self, f: &mut fmt::Formatter<W>) -> fmt::Result {
        let line = self.line;
        let wrong = self.wrong;
        write!(f, "{line}: {wrong}")
    }
}

impl Error for Wrong {}

impl Error for Fault {}

impl From<AllocError> for Wrong {
    ghost from_gives = { λ _ r. r ≡ NoMemory };

    fn from(_e: AllocError) -> Wrong {
        Wrong::NoMemory
    }
}

impl<T: Drop> From<AllocFailed<T>> for Wrong {
    ghost from_gives = { λ _ r. r ≡ NoMemory };

    fn from(_e: AllocFailed<T>) -> Wrong {
        Wrong::NoMemory
    }
}
