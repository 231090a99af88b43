//! What holds of the reader beyond the clauses of a link: nothing of it is left open.
ghost use Rattle.reader.specs.Fixed.{NoGaps, ReaderFixed};

/// What a reader answers and becomes is fixed, and its pipe is pipe 0.
pub fn reader_fixed()
    ensures fixed { ReaderFixed }
    ensures gaps { NoGaps }
{}
