//! The sinks at their bounds: order, early packets, the wrap.
use crate::windows::{numbers, space, window};
use devices::Sink;
use link::{Collected, Direction, Fetched, Link, Packet, PollAnswer};
use std::test::Fail;

#[test]
fn one_outward_pipe(rt: HostRuntime) -> Result<(), Fail> {
    let mut into = Packet::new();
    let mut s = Sink::plain(rt.alloc(), space(100, 10))?;
    assert!(rt; s.describe(0) == Some(Direction::Outward));
    assert!(rt; s.describe(1) == None);
    assert!(rt; s.poll(0, 1) == PollAnswer::Stall);
    assert!(rt; s.poll(1, 1) == PollAnswer::Stall);
    assert!(rt; s.fetch(0, 0, &mut into) == Fetched::Lost);
    assert!(rt; s.collect(1) == Collected::Stall);
    Ok(())
}

#[test]
fn nothing_before_a_restart(rt: HostRuntime) -> Result<(), Fail> {
    let mut s = Sink::gathering(rt.alloc(), space(100, 10))?;
    assert!(rt; s.collect(0) == Collected::Stall);
    s.send(0, 0, &[1]);
    assert!(rt; s.taken_lengths().is_empty());
    s.restart(0, window(4, 4, 7));
    s.restart(0, window(3585, 4, 8));
    s.restart(0, window(4, 17, 34));
    s.restart(1, numbers());
    assert!(rt; s.collect(0) == Collected::Stall);
    s.restart(0, numbers());
    assert!(rt; s.collect(0) == Collected::Vector(0x0F));
    Ok(())
}

#[test]
fn packets_in_order(rt: HostRuntime) -> Result<(), Fail> {
    let mut s = Sink::plain(rt.alloc(), space(100, 10))?;
    s.restart(0, numbers());
    s.send(0, 0, &[1, 2, 3, 4]);
    s.send(0, 1, &[]);
    s.send(0, 2, &[5]);
    assert!(rt; s.taken_bytes() == [1, 2, 3, 4, 5].as_slice());
    assert!(rt; s.taken_lengths() == [4, 0, 1].as_slice());
    assert!(rt; s.collect(0) == Collected::Vector(0x78));
    // A number that was taken, one past the window, one at the range, and one packet longer than P, are dropped.
    s.send(0, 2, &[6]);
    s.send(0, 7, &[6]);
    s.send(0, 8, &[6]);
    s.send(0, 3, &[6, 7, 8, 9, 10]);
    s.send(1, 3, &[6]);
    assert!(rt; s.taken_lengths().len() == 3);
    assert!(rt; s.collect(0) == Collected::Vector(0x78));
    Ok(())
}

#[test]
fn a_plain_sink_keeps_no_early_packet(rt: HostRuntime) -> Result<(), Fail> {
    let mut s = Sink::plain(rt.alloc(), space(100, 10))?;
    s.restart(0, numbers());
    s.send(0, 1, &[2]);
    s.send(0, 0, &[1]);
    assert!(rt; s.taken_bytes() == [1].as_slice());
    assert!(rt; s.collect(0) == Collected::Vector(0x1E));
    Ok(())
}

#[test]
fn a_gathering_sink_keeps_early_packets(rt: HostRuntime) -> Result<(), Fail> {
    let mut s = Sink::gathering(rt.alloc(), space(100, 10))?;
    s.restart(0, numbers());
    s.send(0, 1, &[2]);
    s.send(0, 3, &[4, 4]);
    // Not taken at once, and its bit is clear.
    assert!(rt; s.taken_lengths().is_empty());
    assert!(rt; s.collect(0) == Collected::Vector(0x05));
    // An early packet that comes again is dropped.
    s.send(0, 1, &[9]);
    s.send(0, 0, &[1]);
    assert!(rt; s.taken_bytes() == [1, 2].as_slice());
    assert!(rt; s.collect(0) == Collected::Vector(0x34));
    s.send(0, 2, &[3, 3, 3, 3]);
    assert!(rt; s.taken_bytes() == [1, 2, 3, 3, 3, 3, 4, 4].as_slice());
    assert!(rt; s.taken_lengths() == [1, 1, 4, 2].as_slice());
    assert!(rt; s.collect(0) == Collected::Vector(0xF0));
    Ok(())
}

#[test]
fn the_wrap_with_a_packet_lost(rt: HostRuntime) -> Result<(), Fail> {
    // Six packets are taken; number 6 is lost, 7 and 0 are kept, 1 is lost: numbers 6 and 1 are wanted.
    let mut s = Sink::gathering(rt.alloc(), space(100, 20))?;
    s.restart(0, numbers());
    for n in 0..6 {
        s.send(0, n, &[n]);
    }
    assert!(rt; s.collect(0) == Collected::Vector(0xC3));
    s.send(0, 7, &[7]);
    s.send(0, 0, &[8]);
    assert!(rt; s.collect(0) == Collected::Vector(0x42));
    assert!(rt; s.taken_lengths().len() == 6);
    s.send(0, 6, &[6]);
    assert!(rt; s.taken_bytes() == [0, 1, 2, 3, 4, 5, 6, 7, 8].as_slice());
    assert!(rt; s.collect(0) == Collected::Vector(0x1E));
    // Number 0 is taken now, and stands for no packet of the window.
    s.send(0, 0, &[99]);
    s.send(0, 1, &[9]);
    assert!(rt; s.taken_lengths().len() == 10);
    assert!(rt; s.collect(0) == Collected::Vector(0x3C));
    Ok(())
}

#[test]
fn the_widest_window(rt: HostRuntime) -> Result<(), Fail> {
    let mut s = Sink::gathering(rt.alloc(), space(100, 40))?;
    s.restart(0, window(1, 16, 32));
    assert!(rt; s.collect(0) == Collected::Vector(0xFFFF));
    s.send(0, 15, &[15]);
    s.send(0, 16, &[16]);
    assert!(rt; s.collect(0) == Collected::Vector(0x7FFF));
    for n in 0..15 {
        s.send(0, n, &[n]);
    }
    assert!(rt; s.taken_lengths().len() == 16);
    assert!(rt; s.collect(0) == Collected::Vector(0xFFFF_0000));
    Ok(())
}

#[test]
fn a_restart_frees_all(rt: HostRuntime) -> Result<(), Fail> {
    let mut s = Sink::gathering(rt.alloc(), space(4, 2))?;
    s.restart(0, window(2, 2, 4));
    s.send(0, 1, &[3, 4]);
    s.send(0, 0, &[1, 2]);
    assert!(rt; s.taken_bytes() == [1, 2, 3, 4].as_slice());
    s.restart(0, window(2, 2, 4));
    assert!(rt; s.taken_bytes().is_empty());
    assert!(rt; s.taken_lengths().is_empty());
    assert!(rt; s.collect(0) == Collected::Vector(0b11));
    s.send(0, 1, &[7]);
    assert!(rt; s.collect(0) == Collected::Vector(0b01));
    s.restart(0, window(2, 1, 2));
    assert!(rt; s.collect(0) == Collected::Vector(0b01));
    s.send(0, 0, &[5]);
    assert!(rt; s.taken_bytes() == [5].as_slice());
    Ok(())
}
