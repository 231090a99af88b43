//! What a line of a scenario asks for.
use lexer::Data;

/// A device at the far end of a link, as a scenario describes it.
#[derive(Drop)]
pub enum Kind {
    /// A reader: its bytes, and the lengths of its messages.
    Reader(Data, Vec<u32>),
    // Two cases and no flag in one, since `true` would not say which sink it stands for.
    /// A plain sink: space for bytes, and for packet lengths.
    Plain(usize, usize),
    /// A gathering sink: space for bytes, and for packet lengths.
    Gathering(usize, usize),
}

/// A device and the patterns of the layers over it.
#[derive(Drop)]
pub struct Device {
    pub kind: Kind,
    pub busy: u64,
    pub loss: u64,
}

/// What a line asks for.
#[derive(Drop)]
pub enum Command {
    /// A device, which has this pipe.
    Device(u8),
    /// Looks at what the sink at this pipe took in its term.
    Taken(u8),
    /// Switches notices on.
    NoticesOn,
    /// A notice arrives: its source, its key if it is secure, its bytes.
    Notice(u8, Option<u32>, Data),
    /// Takes the oldest notice.
    Take,
    /// Looks at a block of the notice buffer.
    Block(u8),
    /// Looks whether notices are on, and at the overflow mark.
    Overflow,
}

/// A line that asks for something: its number, from 1, the words that its answer begins with, and the command.
#[derive(Drop)]
pub struct Line {
    pub number: usize,
    pub label: String,
    pub command: Command,
}

/// A scenario: its devices, in the order of their pipes, and its lines.
#[derive(Drop)]
pub struct Script {
    pub devices: Vec<Device>,
    pub lines: Vec<Line>,
}
