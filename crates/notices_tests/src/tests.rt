//! The bounds of notices, and the wrap of the blocks.
use notices::{BUFFER, Notice, Notices};
use refusal::{Party, Refusal, Spot};
use std::process::Abort;
use std::test::*;

// Bytes for notices.
const BYTES: [u8; 57] = [3; 57];

// What is done to a notice buffer: data that tables list in turn, so no closures.
#[derive(Clone, Copy)]
enum Act {
    // Switches on.
    On,
    // A notice of so many bytes arrives from a source, with a key or none.
    Arrive(u8, Option<u32>, usize),
    // Takes the oldest.
    Take,
    // Looks at a byte of a block.
    Byte(u8, usize),
    // Looks whether notices are on, and whether overflow is marked.
    Marks,
}

// What came of it.
#[derive(Clone, Copy, PartialEq, Eq, Debug)]
enum Came {
    // Nothing is answered.
    Done,
    // The block that was answered, or the refusal.
    Answered(Result<usize, Refusal>),
    // The byte that is there, if there is such a block.
    Byte(Option<u8>),
    // Whether notices are on, and whether overflow is marked.
    Marks(bool, bool),
}

// Does it, and says what came of it.
fn done(notices: &mut Notices, act: Act) -> Came {
    match act {
        Act::On => {
            notices.switch_on();
            Came::Done
        }
        Act::Arrive(source, key, size) => Came::Answered(notices.arrive(Notice {
            source,
            key,
            bytes: &BYTES[..size.min(57)],
        })),
        Act::Take => Came::Answered(notices.take()),
        Act::Byte(block, at) => Came::Byte(
            notices
                .block(block)
                .and_then(|bytes| bytes.get(at).copied()),
        ),
        Act::Marks => Came::Marks(notices.is_on(), notices.overflowed()),
    }
}

// Does one thing after another on a new buffer, and compares.
fn compared(rt: &(impl Abort + Alloc), acts: &[(Act, Came)]) -> Result<(), Fail> {
    let mut buffer = vec![in rt.alloc(); 7u8; BUFFER]?;
    let mut notices = Notices::new(buffer.as_mut_slice())?;
    for (act, expected) in acts {
        assert_eq!(rt; done(&mut notices, *act), *expected);
    }
    Ok(())
}

// The same so often, each with the next block as its answer.
fn in_turn(notices: &mut Notices, act: Act, first: usize, many: usize) -> bool {
    (first..first.saturating_add(many)).all(|block| done(notices, act)
        == Came::Answered(Ok(block % 64)))
}

#[test]
fn sizes_of_the_lent_buffer(rt: HostRuntime) -> Result<(), Fail> {
    let mut short = vec![in rt.alloc(); 0u8; 4095]?;
    let mut long = vec![in rt.alloc(); 0u8; 4097]?;
    assert!(rt; Notices::new(short.as_mut_slice()).is_err());
    assert!(rt; Notices::new(long.as_mut_slice()).is_err());
    compared(
        &rt,
        &[
            (Act::Byte(0, 0), Came::Byte(Some(0))),
            (Act::Byte(63, 63), Came::Byte(Some(0))),
            (Act::Byte(64, 0), Came::Byte(None)),
            (Act::Marks, Came::Marks(false, false)),
        ],
    )
}

#[test]
fn sizes_and_keys_of_notices(rt: HostRuntime) -> Result<(), Fail> {
    compared(
        &rt,
        &[
            (
                Act::Arrive(1, None, 0),
                Came::Answered(Err(Refusal::BadNotice)),
            ),
            (
                Act::Arrive(1, None, 1),
                Came::Answered(Err(Refusal::NoticesOff)),
            ),
            (Act::Take, Came::Answered(Err(Refusal::NothingThere))),
            (Act::On, Came::Done),
            (Act::Arrive(1, None, 1), Came::Answered(Ok(0))),
            (Act::Arrive(1, None, 56), Came::Answered(Ok(1))),
            (
                Act::Arrive(1, None, 57),
                Came::Answered(Err(Refusal::BadNotice)),
            ),
            (Act::Arrive(9, Some(16_777_215), 2), Came::Answered(Ok(2))),
            (
                Act::Arrive(9, Some(16_777_216), 2),
                Came::Answered(Err(Refusal::BadNotice)),
            ),
            (Act::Byte(0, 3), Came::Byte(Some(0x80))),
            (Act::Byte(1, 0), Came::Byte(Some(56))),
            (Act::Byte(1, 63), Came::Byte(Some(3))),
            (Act::Byte(2, 2), Came::Byte(Some(9))),
            (Act::Byte(2, 3), Came::Byte(Some(0xc0))),
            (Act::Byte(2, 6), Came::Byte(Some(255))),
            (Act::Byte(2, 7), Came::Byte(Some(0))),
            (Act::Take, Came::Answered(Ok(0))),
            (Act::Byte(0, 3), Came::Byte(Some(0))),
        ],
    )
}

#[test]
fn full_and_round(rt: HostRuntime) -> Result<(), Fail> {
    let mut buffer = vec![in rt.alloc(); 0u8; BUFFER]?;
    let mut notices = Notices::new(buffer.as_mut_slice())?;
    let good = done(&mut notices, Act::On) == Came::Done
        && in_turn(&mut notices, Act::Arrive(5, None, 2), 0, 64)
        && done(&mut notices, Act::Arrive(6, None, 2)) == Came::Answered(Err(Refusal::NoticesFull))
        && done(&mut notices, Act::Marks) == Came::Marks(false, true)
        && done(&mut notices, Act::Byte(0, 2)) == Came::Byte(Some(5))
        && done(&mut notices, Act::Arrive(6, None, 2)) == Came::Answered(Err(Refusal::NoticesOff))
        && in_turn(&mut notices, Act::Take, 0, 3)
        && done(&mut notices, Act::On) == Came::Done
        && done(&mut notices, Act::Marks) == Came::Marks(true, false)
        && in_turn(&mut notices, Act::Arrive(6, Some(1), 2), 0, 3)
        && done(&mut notices, Act::Byte(0, 3)) == Came::Byte(Some(0xc0))
        && in_turn(&mut notices, Act::Take, 3, 64)
        && done(&mut notices, Act::Take) == Came::Answered(Err(Refusal::NothingThere));
    assert!(rt; good);
    Ok(())
}

#[test]
fn refusals_as_people_read_them(rt: HostRuntime) -> Result<(), Fail> {
    let heap = rt.alloc();
    let entry = Refusal::PageTaken(Spot::Entry(1, 3)).to_string(heap)?;
    assert!(rt; entry.as_str() == "refused 9, piece 1, entry 3: page owned, or named twice");
    let piece = Refusal::BadPlace(Spot::Piece(0)).to_string(heap)?;
    assert!(rt;
        piece.as_str() == "refused 8, piece 0: place or length outside the rules or the memory"
    );
    let call = Refusal::ImageSize.to_string(heap)?;
    assert!(rt; call.as_str() == "refused 17: image not 24 bytes");
    assert_eq!(rt; Refusal::BadSlot.party(), Party::Driver);
    assert_eq!(rt; Refusal::BadNotice.party(), Party::Device);
    assert_eq!(rt; Refusal::NoSuchSet.party(), Party::SetUp);
    assert_eq!(rt; Refusal::ImageSize.party(), Party::ImageSender);
    Ok(())
}
