//! The reader at its bounds.
use crate::windows::{numbers, window};
use devices::Reader;
use link::{Collected, Direction, Fetched, Link, Packet, PollAnswer};
use std::alloc::AllocError;
use std::test::Fail;

fn reader(rt: HostRuntime, bytes: &[u8], lengths: &[u32]) -> Result<Reader, AllocError> {
    Ok(Reader::new(bytes.to_vec(rt.alloc())?, lengths.to_vec(rt.alloc())?))
}

// Whether a Fetch of this offset gives this packet, or is Lost if there is none.
fn fetches(r: &mut Reader, offset: u8, packet: Option<&[u8]>) -> bool {
    let mut into = Packet::new();
    match r.fetch(0, offset, &mut into) {
        Fetched::Packet => packet == Some(into.bytes()),
        Fetched::Lost => packet == None,
    }
}

#[test]
fn one_inward_pipe(rt: HostRuntime) -> Result<(), Fail> {
    let mut r = reader(rt, &[1, 2], &[2])?;
    assert!(rt; r.describe(0) == Some(Direction::Inward));
    assert!(rt; r.describe(1) == None);
    assert!(rt; r.describe(31) == None);
    assert!(rt; r.collect(0) == Collected::Stall);
    assert!(rt; r.collect(1) == Collected::Stall);
    r.send(0, 0, &[1]);
    assert!(rt; r.unsent_messages() == 1);
    Ok(())
}

#[test]
fn nothing_before_a_restart(rt: HostRuntime) -> Result<(), Fail> {
    let mut r = reader(rt, &[1, 2], &[2])?;
    assert!(rt; r.poll(0, 1) == PollAnswer::Stall);
    assert!(rt; fetches(&mut r, 0, None));
    r.restart(1, numbers());
    assert!(rt; r.poll(0, 1) == PollAnswer::Stall);
    r.restart(0, window(4, 4, 7));
    assert!(rt; r.poll(0, 1) == PollAnswer::Stall);
    r.restart(0, window(0, 4, 8));
    assert!(rt; r.poll(0, 1) == PollAnswer::Stall);
    r.restart(0, window(4, 4, 8));
    assert!(rt; r.poll(0, 1) == PollAnswer::Data);
    assert!(rt; r.poll(1, 1) == PollAnswer::Stall);
    Ok(())
}

#[test]
fn packets_of_a_message(rt: HostRuntime) -> Result<(), Fail> {
    // Six bytes are a packet of four and one of two; the second message is not reached from the first.
    let mut r = reader(rt, &[1, 2, 3, 4, 5, 6, 7], &[6, 1])?;
    r.restart(0, numbers());
    assert!(rt; r.poll(0, 0b1111) == PollAnswer::Data);
    assert!(rt; fetches(&mut r, 0, Some(&[1, 2, 3, 4])));
    assert!(rt; fetches(&mut r, 1, Some(&[5, 6])));
    assert!(rt; fetches(&mut r, 2, None));
    assert!(rt; r.poll(0, 0b11_1100) == PollAnswer::Data);
    assert!(rt; fetches(&mut r, 0, Some(&[7])));
    assert!(rt; fetches(&mut r, 1, None));
    assert!(rt; r.unsent_messages() == 1);
    assert!(rt; r.unsent_bytes() == [7].as_slice());
    Ok(())
}

#[test]
fn exact_multiples_end_in_an_empty_packet(rt: HostRuntime) -> Result<(), Fail> {
    let mut r = reader(rt, &[1, 2, 3, 4, 5, 6, 7, 8], &[8])?;
    r.restart(0, numbers());
    assert!(rt; r.poll(0, 0b1111) == PollAnswer::Data);
    assert!(rt; fetches(&mut r, 1, Some(&[5, 6, 7, 8])));
    assert!(rt; fetches(&mut r, 2, Some(&[])));
    assert!(rt; fetches(&mut r, 3, None));
    // The place after two packets: the empty rest is a message still.
    assert!(rt; r.poll(0, 0b111_1100) == PollAnswer::Data);
    assert!(rt; r.unsent_messages() == 1);
    assert!(rt; r.unsent_bytes().is_empty());
    assert!(rt; fetches(&mut r, 0, Some(&[])));
    assert!(rt; r.poll(0, 0b1000) == PollAnswer::NotReady);
    assert!(rt; r.unsent_messages() == 0);
    Ok(())
}

#[test]
fn empty_messages(rt: HostRuntime) -> Result<(), Fail> {
    // A length with nothing left makes an empty message, as an empty length does; each is one empty packet.
    let mut r = reader(rt, &[1], &[0, 1, 5])?;
    r.restart(0, numbers());
    assert!(rt; r.unsent_messages() == 3);
    assert!(rt; r.poll(0, 1) == PollAnswer::Data);
    assert!(rt; fetches(&mut r, 0, Some(&[])));
    assert!(rt; fetches(&mut r, 1, None));
    assert!(rt; r.poll(0, 2) == PollAnswer::Data);
    assert!(rt; fetches(&mut r, 0, Some(&[1])));
    assert!(rt; r.poll(0, 4) == PollAnswer::Data);
    assert!(rt; fetches(&mut r, 0, Some(&[])));
    assert!(rt; r.poll(0, 8) == PollAnswer::NotReady);
    Ok(())
}

#[test]
fn no_message_at_all(rt: HostRuntime) -> Result<(), Fail> {
    // Bytes after the last length belong to no message.
    let mut r = reader(rt, &[1, 2, 3], &[])?;
    r.restart(0, numbers());
    assert!(rt; r.unsent_messages() == 0);
    assert!(rt; r.unsent_bytes().is_empty());
    assert!(rt; r.poll(0, 1) == PollAnswer::NotReady);
    assert!(rt; fetches(&mut r, 0, None));
    // An aim past the packet count.
    assert!(rt; r.poll(0, 2) == PollAnswer::Silence);
    assert!(rt; r.poll(0, 0) == PollAnswer::Silence);
    Ok(())
}

#[test]
fn the_aim_at_its_bounds(rt: HostRuntime) -> Result<(), Fail> {
    // Two packets: an aim at the count is NotReady and moves, one past it is Silence and does not.
    let mut r = reader(rt, &[1, 2], &[1, 1])?;
    r.restart(0, numbers());
    assert!(rt; r.poll(0, 0b1000) == PollAnswer::Silence);
    assert!(rt; r.unsent_messages() == 2);
    // Bits at or above the range never count.
    assert!(rt; r.poll(0, 0xFFFF_FF00) == PollAnswer::Silence);
    assert!(rt; r.poll(0, 0b100) == PollAnswer::NotReady);
    assert!(rt; r.unsent_messages() == 0);
    // Number 1 is packet 9 now, far past the end.
    assert!(rt; r.poll(0, 0b10) == PollAnswer::Silence);
    assert!(rt; r.poll(0, 0b100) == PollAnswer::NotReady);
    Ok(())
}

#[test]
fn offsets_below_the_burst(rt: HostRuntime) -> Result<(), Fail> {
    let mut r = reader(rt, &[1; 40], &[40])?;
    r.restart(0, numbers());
    assert!(rt; r.poll(0, 0xFF) == PollAnswer::Data);
    assert!(rt; fetches(&mut r, 3, Some(&[1; 4])));
    assert!(rt; fetches(&mut r, 4, None));
    assert!(rt; fetches(&mut r, 255, None));
    Ok(())
}

#[test]
fn packets_over_the_wrap(rt: HostRuntime) -> Result<(), Fail> {
    // Twelve packets of one byte and numbers 0 to 3: the place goes to 6 and back to number 2, one packet lost, a later one there.
    let mut r = reader(rt, &[0, 1, 2, 3, 4, 5, 6, 7, 8, 9, 10, 11], &[12])?;
    r.restart(0, window(1, 2, 4));
    assert!(rt; r.poll(0, 0b1100) == PollAnswer::Data);
    assert!(rt; fetches(&mut r, 1, Some(&[3])));
    assert!(rt; r.poll(0, 0b0001) == PollAnswer::Data);
    assert!(rt; r.poll(0, 0b1100) == PollAnswer::Data);
    assert!(rt; fetches(&mut r, 0, Some(&[6])));
    assert!(rt; fetches(&mut r, 1, Some(&[7])));
    // 7 is held, 6 is asked for again with 8: the aim is 6 still.
    assert!(rt; r.poll(0, 0b0101) == PollAnswer::Data);
    assert!(rt; fetches(&mut r, 0, Some(&[6])));
    Ok(())
}

#[test]
fn restart_in_the_middle_of_a_message(rt: HostRuntime) -> Result<(), Fail> {
    let mut r = reader(rt, &[1, 2, 3, 4, 5, 6, 7, 8, 9], &[8, 1])?;
    r.restart(0, numbers());
    assert!(rt; r.poll(0, 0b10) == PollAnswer::Data);
    assert!(rt; fetches(&mut r, 0, Some(&[5, 6, 7, 8])));
    // One packet is acknowledged: the rest of the message is a message, in packets of the new size.
    r.restart(0, window(3, 2, 4));
    assert!(rt; r.unsent_messages() == 2);
    assert!(rt; r.unsent_bytes() == [5, 6, 7, 8, 9].as_slice());
    assert!(rt; r.poll(0, 0b11) == PollAnswer::Data);
    assert!(rt; fetches(&mut r, 0, Some(&[5, 6, 7])));
    assert!(rt; fetches(&mut r, 1, Some(&[8])));
    Ok(())
}

#[test]
fn restart_after_all_bytes_of_a_message(rt: HostRuntime) -> Result<(), Fail> {
    // All bytes are acknowledged, the empty packet that ends the message is not: an empty message is left.
    let mut r = reader(rt, &[1, 2, 3, 4], &[4])?;
    r.restart(0, numbers());
    assert!(rt; r.poll(0, 0b10) == PollAnswer::Data);
    r.restart(0, numbers());
    assert!(rt; r.unsent_messages() == 1);
    assert!(rt; r.poll(0, 0b1) == PollAnswer::Data);
    assert!(rt; fetches(&mut r, 0, Some(&[])));
    assert!(rt; r.poll(0, 0b10) == PollAnswer::NotReady);
    r.restart(0, numbers());
    assert!(rt; r.poll(0, 0b1) == PollAnswer::NotReady);
    Ok(())
}
