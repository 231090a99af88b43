//! Carries out a command and writes its answer as a line of text.
ghost use Rattle.std.specs.Prelude.{◌≡◌, OnOk};
ghost use Rattle.notices.specs.Boards.{board};
ghost use Rattle.player.specs.Carrying.{carried};

use crate::glance::{Glance, Hex};
use devices::Sink;
use link::{Direction, Link};
use notices::{Notice, Notices};
use pile::{Pile, sink_at};
use refusal::Refusal;
use script::{Command, Line};
use std::alloc::{AllocError, Global};
use std::fmt;

// What an answer says after its label.
#[derive(Clone, Copy)]
enum Said<'a> {
    // A device's pipe, and its direction if there is one.
    Device(u8, Option<Direction>),
    // What a sink took in its term.
    Taken(Option<&'a Sink>),
    // Notices are on.
    On,
    // The block that a call answered, or its refusal.
    Block(Result<usize, Refusal>),
    // The bytes of a block, if there is one.
    Bytes(Option<&'a [u8]>),
    // Whether notices are on, and the overflow mark.
    Overflow { on: bool, marked: bool },
}

impl fmt::Display for Said<'_> {
    fn fmt<W: fmt::Write>(&self, f: &mut fmt::Formatter<W>) -> fmt::Result {
        match self {
            Said::Device(pipe, Some(direction)) => write!(f, "pipe {pipe}, {direction}"),
            Said::Device(_, None) => write!(f, "no pipe"),
            Said::Taken(Some(sink)) => {
                let packets = sink.taken_lengths().len();
                let glance = Glance {
                    bytes: sink.taken_bytes(),
                };
                write!(f, "{packets} packets, {glance}")
            }
            Said::Taken(None) => write!(f, "no sink"),
            Said::On => write!(f, "on"),
            Said::Block(Ok(block)) => write!(f, "block {block}"),
            Said::Block(Err(refusal)) => write!(f, "{refusal}"),
            Said::Bytes(Some(bytes)) => Hex { bytes }.fmt(f),
            Said::Bytes(None) => Ok(()),
            Said::Overflow { on, marked } => {
                let on = if *on { "on" } else { "off" };
                let mark = if *marked {
                    "overflow marked"
                } else {
                    "no overflow"
                };
                write!(f, "notices {on}, {mark}")
            }
        }
    }
}

/// Carries out a line's command; what it answers, as a line of text.
// `lent`: the language asks it of each function that takes a struct which holds a `&mut`.
pub fn carry_out(
    heap: Global,
    notices: &mut Notices,
    pile: &Pile,
    line: Line,
) -> Result<String, AllocError>
    ensures after { OnOk result (board notices.new ≡ carried (board notices.old) line.command) }
    ensures lent { notices.new.buffer.ghost_name ≡ notices.old.buffer.ghost_name }
{
    // The answer goes on where the label ends, in room for most answers: piece by piece it would ask for memory again and again.
    let mut text = line.label;
    let answer = |said: Said<'_>| -> Result<String, AllocError> {
        text.reserve(64)?;
        write!(text, ": {said}")?;
        Ok(text)
    };
    match line.command {
        Command::Device(pipe) => answer(Said::Device(pipe, pile.describe(pipe))),
        Command::Taken(pipe) => answer(Said::Taken(sink_at(pile, pipe))),
        Command::NoticesOn => {
            notices.switch_on();
            answer(Said::On)
        }
        Command::Notice(source, key, data) => {
            let bytes = data.into_bytes(heap)?;
            let notice = Notice {
                source,
                key,
                bytes: bytes.as_slice(),
            };
            answer(Said::Block(notices.arrive(notice)))
        }
        Command::Take => answer(Said::Block(notices.take())),
        Command::Block(number) => answer(Said::Bytes(notices.block(number))),
        Command::Overflow => answer(Said::Overflow {
            on: notices.is_on(),
            marked: notices.overflowed(),
        }),
    }
}
