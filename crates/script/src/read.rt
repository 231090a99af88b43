//! Reads a scenario: the whole text, line by line, before anything runs.
ghost use Rattle.std.specs.Prelude.{◌≤◌, IfOk, vec_len};

use crate::command::{Command, Device, Kind, Line, Script};
use crate::fault::{Fault, Wrong};
use lexer::{Data, Stop, Words, part_at, read_data, read_u8, read_u32, read_u64};
use std::alloc::{AllocError, Global};
use std::iter::Peekable;

// A word with an equals sign is an option: its name and its value.
fn option_of(word: &[u8]) -> Option<(&[u8], &[u8])> {
    part_at(word, Stop::At(b'='))
}

// A number of 64 bits; an option stands too early.
fn number(word: &[u8]) -> Result<u64, Wrong> {
    read_u64(word).ok_or_else(|| match option_of(word) {
        Some(_) => Wrong::MisplacedOption,
        None => Wrong::BadNumber,
    })
}

// The layers' patterns, as far as they are given.
#[derive(Clone, Copy, Default)]
struct Patterns {
    busy: Option<u64>,
    loss: Option<u64>,
}

impl Patterns {
    // Sets the pattern of this name to the number that the value says; a second time is a fault.
    fn set(&mut self, name: &[u8], value: &[u8]) -> Result<(), Wrong> {
        let bits = read_u64(value).ok_or(Wrong::BadNumber)?;
        let pattern = match name {
            b"busy" => &mut self.busy,
            b"loss" => &mut self.loss,
            _ => return Err(Wrong::UnknownWord),
        };
        // A match, as in `end`: None is the good case.
        match pattern.replace(bits) {
            Some(_) => Err(Wrong::MisplacedOption),
            None => Ok(()),
        }
    }

    // A device under layers with these patterns, 0 where none is given.
    fn over(self, kind: Kind) -> Device {
        Device {
            kind,
            busy: self.busy.unwrap_or(0),
            loss: self.loss.unwrap_or(0),
        }
    }
}

// What is still to be read of a line, and the heap that keeps what is read.
#[derive(Drop)]
struct Rest<'a> {
    heap: Global,
    words: Peekable<Words<'a>>,
}

impl<'a> Rest<'a> {
    // The next word, which has to be there.
    fn word(&mut self) -> Result<&'a [u8], Wrong> {
        self.words.next().ok_or(Wrong::MissingWord)
    }

    // Nothing more stands on the line. A match: None is the good case here, and `ok_or` has it the other way round.
    fn end(&mut self) -> Result<(), Wrong> {
        match self.words.next() {
            Some(_) => Err(Wrong::ExtraWord),
            None => Ok(()),
        }
    }

    // A number of 8 bits.
    fn byte(&mut self) -> Result<u8, Wrong> {
        read_u8(self.word()?).ok_or(Wrong::BadNumber)
    }

    // A notice's key: '-' for none, or a number of 32 bits.
    fn key(&mut self) -> Result<Option<u32>, Wrong> {
        match self.word()? {
            b"-" => Ok(None),
            word => read_u32(word).map(Some).ok_or(Wrong::BadNumber),
        }
    }

    // Bytes.
    fn data(&mut self) -> Result<Data, Wrong> {
        read_data(self.heap, self.word()?)?.ok_or(Wrong::BadData)
    }

    // The lengths of messages: the words before the options. One that no message can have counts as the largest.
    fn lengths(&mut self) -> Result<Vec<u32>, Wrong> {
        let mut lengths = Vec::new(self.heap);
        while let Some(word) = self.words.next_if(|word| option_of(word).is_none()) {
            lengths.push(u32::try_from(number(word)?).unwrap_or(u32::MAX))?;
        }
        Ok(lengths)
    }

    // The options that end the line, and what is wrong with another word there.
    fn options(&mut self, other: Wrong) -> Result<Patterns, Wrong> {
        let mut options = Patterns::default();
        for word in &mut self.words {
            let (name, value) = option_of(word).ok_or(other)?;
            options.set(name, value)?;
        }
        Ok(options)
    }

    // A reader: its bytes, the lengths of its messages, of which there is at least one, and the options.
    fn reader(&mut self) -> Result<Device, Wrong> {
        let data = self.data()?;
        let lengths = self.lengths()?;
        let options = self.options(Wrong::MisplacedOption)?;
        if lengths.is_empty() {
            return Err(Wrong::MissingWord);
        }
        Ok(options.over(Kind::Reader(data, lengths)))
    }

    // A sink: its space for bytes and for packet lengths, and the options.
    fn sink<F: FnOnce(usize, usize) -> Kind>(&mut self, kind: F) -> Result<Device, Wrong>
        requires { F.IsAlwaysCallable kind }
    {
        let space = number(self.word()?)?;
        let places = number(self.word()?)?;
        let options = self.options(Wrong::ExtraWord)?;
        Ok(options.over(kind(space as usize, places as usize)))
    }

    // Switches notices on: the word on.
    fn notices(&mut self) -> Result<Command, Wrong> {
        match self.word()? {
            b"on" => Ok(Command::NoticesOn),
            _ => Err(Wrong::UnknownWord),
        }
    }

    // A notice: its source, its key and its bytes.
    fn notice(&mut self) -> Result<Command, Wrong> {
        let source = self.byte()?;
        let key = self.key()?;
        let data = self.data()?;
        Ok(Command::Notice(source, key, data))
    }

    // A block of the notice buffer: its number, up to 63.
    fn block(&mut self) -> Result<Command, Wrong> {
        match self.byte()? {
            number @ 0..=63 => Ok(Command::Block(number)),
            _ => Err(Wrong::NoSuchBlock),
        }
    }

    // What a sink took: the pipe, at which one of the devices so far is a sink.
    fn taken(&mut self, devices: &[Device]) -> Result<Command, Wrong> {
        let pipe = self.byte()?;
        match devices.get(usize::from(pipe)).map(|device| &device.kind) {
            Some(Kind::Plain(_, _) | Kind::Gathering(_, _)) => Ok(Command::Taken(pipe)),
            _ => Err(Wrong::NotASink),
        }
    }

    // What the line asks for, by its first word.
    fn command(&mut self, verb: &[u8], devices: &mut Vec<Device>) -> Result<Command, Wrong>
        ensures { vec_len devices.old ≤ 4 → vec_len devices.new ≤ 4 }
    {
        let command = match verb {
            b"reader" => add_device(devices, self.reader()?)?,
            b"plain" => add_device(devices, self.sink(Kind::Plain)?)?,
            b"gathering" => add_device(devices, self.sink(Kind::Gathering)?)?,
            b"notices" => self.notices()?,
            b"notice" => self.notice()?,
            b"take" => Command::Take,
            b"block" => self.block()?,
            b"overflow" => Command::Overflow,
            b"taken" => self.taken(devices.as_slice())?,
            _ => return Err(Wrong::UnknownWord),
        };
        self.end()?;
        Ok(command)
    }
}

// Adds a device: its pipe.
fn add_device(devices: &mut Vec<Device>, device: Device) -> Result<Command, Wrong>
    ensures { vec_len devices.old ≤ 4 → vec_len devices.new ≤ 4 }
{
    let pipe = devices.len();
    if pipe >= 4 {
        return Err(Wrong::FifthDevice);
    }
    devices.push(device)?;
    Ok(Command::Device(pipe as u8))
}

// The words that an answer begins with: the line's first, and where its command names a thing that word as it was written.
fn label(
    heap: Global,
    command: &Command,
    verb: &[u8],
    words: Words<'_>,
) -> Result<String, AllocError> {
    let shown = match command {
        Command::Block(_) | Command::Taken(_) => 1,
        _ => 0,
    };
    let mut label = String::new(heap);
    label.extend(verb.iter().map(|byte| char::from(*byte)))?;
    for word in words.take(shown) {
        label.push(' ')?;
        label.extend(word.iter().map(|byte| char::from(*byte)))?;
    }
    Ok(label)
}

// Adds what a line asks for, if it has a word.
fn read_line(heap: Global, script: &mut Script, number: usize, text: &[u8]) -> Result<(), Wrong>
    ensures { vec_len script.old.devices ≤ 4 → vec_len script.new.devices ≤ 4 }
{
    let mut words = Words::new(text);
    if let Some(verb) = words.next() {
        // A copy, since the label says the word after the verb again, but not what stands before the verb.
        let mut rest = Rest {
            heap,
            words: words.peekable(),
        };
        let command = rest.command(verb, &mut script.devices)?;
        let label = label(heap, &command, verb, words)?;
        script.lines.push(Line {
            number,
            label,
            command,
        })?;
    }
    Ok(())
}

/// The devices and commands of a whole text, in order, or the first line that cannot be read.
pub fn read_script(heap: Global, text: &[u8]) -> Result<Script, Fault>
    ensures { IfOk result (λ script. vec_len script.devices ≤ 4) }
{
    let mut script = Script {
        devices: Vec::new(heap),
        lines: Vec::new(heap),
    };
    for (before, text) in text.split(|byte| *byte == b'\n').enumerate() {
        let line = before.saturating_add(1);
        read_line(heap, &mut script, line, text).map_err(|wrong| Fault { line, wrong })?;
    }
    Ok(script)
}
