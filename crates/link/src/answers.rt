//! What a link answers: a pipe's direction, and the answers of Poll, Fetch and Collect, each with its number.
ghost use Rattle.std.specs.Prelude.{◌≡◌, Some};
ghost use Rattle.link.specs.Answers.{collected_number, direction_number, direction_words, fetched_number, poll_number};

use std::fmt;

/// Which way a pipe carries packets, seen from the engine.
#[derive(Clone, Copy, PartialEq, Eq, Debug)]
pub enum Direction {
    /// From the function to the engine.
    Inward,
    /// From the engine to the function.
    Outward,
}

impl From<Direction> for u8 {
    ghost from_gives = { λ d n. n ≡ direction_number d };

    fn from(direction: Direction) -> u8 {
        match direction {
            Direction::Inward => 1,
            Direction::Outward => 2,
        }
    }
}

impl fmt::Display for Direction {
    ghost output = { λ d. Some (direction_words d) };

    fn fmt<W: fmt::Write>(&self, f: &mut fmt::Formatter<W>) -> fmt::Result {
        match *self {
            Direction::Inward => write!(f, "inward"),
            Direction::Outward => write!(f, "outward"),
        }
    }
}

/// What a Poll answers.
#[derive(Clone, Copy, PartialEq, Eq, Debug)]
pub enum PollAnswer {
    /// The function has packets to give.
    Data,
    /// Not now.
    NotReady,
    /// The pipe is halted.
    Stall,
    /// Nothing was heard.
    Silence,
}

impl From<PollAnswer> for u8 {
    ghost from_gives = { λ a n. n ≡ poll_number a };

    fn from(answer: PollAnswer) -> u8 {
        match answer {
            PollAnswer::Data => 1,
            PollAnswer::NotReady => 2,
            PollAnswer::Stall => 3,
            PollAnswer::Silence => 4,
        }
    }
}

/// What a Fetch answers.
// No Option of a packet: it stands in the room that was lent, so that no layer copies it.
#[derive(Clone, Copy, PartialEq, Eq, Debug)]
pub enum Fetched {
    /// The packet came, and stands in the room that was lent.
    Packet,
    /// It did not come.
    Lost,
}

impl From<Fetched> for u8 {
    ghost from_gives = { λ a n. n ≡ fetched_number a };

    fn from(answer: Fetched) -> u8 {
        match answer {
            Fetched::Packet => 1,
            Fetched::Lost => 2,
        }
    }
}

/// What a Collect answers.
#[derive(Clone, Copy, PartialEq, Eq, Debug)]
pub enum Collected {
    /// The sequence numbers that are still wanted, a bit for each.
    Vector(u32),
    /// Not now.
    NotReady,
    /// The pipe is halted.
    Stall,
    /// Nothing was heard.
    Silence,
}

impl From<Collected> for u8 {
    ghost from_gives = { λ a n. n ≡ collected_number a };

    fn from(answer: Collected) -> u8 {
        match answer {
            Collected::Vector(_) => 1,
            Collected::NotReady => 2,
            Collected::Stall => 3,
            Collected::Silence => 4,
        }
    }
}
