//! Texts that cannot be read are told by their line; others are answered line by line.
use notices::{BUFFER, Notices};
use player::{build_pile, carry_out};
use script::{Fault, Wrong, read_script};
use std::test::Fail;

// Texts that cannot be read: the line that is at fault, and what is wrong with it.
const BAD: [(&str, usize, Wrong); 25] = [
    ("take\nfetch", 2, Wrong::UnknownWord),
    ("TAKE", 1, Wrong::UnknownWord),
    ("notices off", 1, Wrong::UnknownWord),
    ("# one\n\ntake # two\nnotices", 4, Wrong::MissingWord),
    ("notice 1 - # hex:01", 1, Wrong::MissingWord),
    ("take 1", 1, Wrong::ExtraWord),
    ("notices on on", 1, Wrong::ExtraWord),
    ("overflow\r\nnotice 256 - hex:01", 2, Wrong::BadNumber),
    ("notice 0x - hex:01", 1, Wrong::BadNumber),
    ("notice +1 - hex:01", 1, Wrong::BadNumber),
    ("notice 1 4294967296 hex:01", 1, Wrong::BadNumber),
    ("notice 1 - hex:012", 1, Wrong::BadData),
    ("notice 1 - hex:0g", 1, Wrong::BadData),
    ("notice 1 - gen:16777217:0", 1, Wrong::BadData),
    ("notice 1 - gen:1", 1, Wrong::BadData),
    ("block 64", 1, Wrong::NoSuchBlock),
    ("reader hex:", 1, Wrong::MissingWord),
    ("reader hex: 1 loss=1 2", 1, Wrong::MisplacedOption),
    ("plain loss=1 1 2", 1, Wrong::MisplacedOption),
    ("plain 1 2 loss=1 busy=2 loss=3", 1, Wrong::MisplacedOption),
    ("plain 1 2 3", 1, Wrong::ExtraWord),
    ("gathering 1 2 lost=1", 1, Wrong::UnknownWord),
    ("gathering 1 18446744073709551616", 1, Wrong::BadNumber),
    (
        "plain 1 1\nplain 1 1\nplain 1 1\nplain 1 1\nreader hex: 0",
        5,
        Wrong::FifthDevice,
    ),
    ("reader hex: 0\ntaken 0", 2, Wrong::NotASink),
];

#[test]
fn faults_by_line(rt: HostRuntime) -> Result<(), Fail> {
    for (text, line, wrong) in BAD {
        let read = read_script(rt.alloc(), text.as_bytes());
        assert_eq!(rt; read.err(), Some(Fault { line, wrong }));
    }
    Ok(())
}

// Lines and their answers, in order.
const PLAYED: [(&str, &str); 9] = [
    ("\t notices  on\r", "notices: on"),
    ("notice 0x0A 0xffFFff hex:0aF0", "notice: block 0"),
    (
        "block 0x00",
        "block 0x00: 02000ac0ffffff000af0000000000000000000000000000000000000000000000000000000000000000000000000000000000000000000000000000000000000",
    ),
    (
        "notice 1 16777216 hex:",
        "notice: refused 14: notice size or key",
    ),
    ("reader hex:0102 1 1 busy=0x5", "reader: pipe 0, inward"),
    (
        "gathering 100 0x10 busy=1 loss=2",
        "gathering: pipe 0, outward",
    ),
    ("take#now", "take: block 0"),
    ("take", "take: refused 10: nothing to reap or take"),
    ("overflow", "overflow: notices on, no overflow"),
];

#[test]
fn answers_line_by_line(rt: HostRuntime) -> Result<(), Fail> {
    let heap = rt.alloc();
    let mut buffer = vec![in heap; 0u8; BUFFER]?;
    let mut notices = Notices::new(buffer.as_mut_slice())?;
    for (text, expected) in PLAYED {
        let script = read_script(heap, text.as_bytes()).map_err(|_| Fail::new(text))?;
        let pile = build_pile(heap, script.devices)?;
        for line in script.lines {
            let answer = carry_out(heap, &mut notices, &pile, line)?;
            assert_eq!(rt; answer.as_str(), expected);
        }
    }
    Ok(())
}
