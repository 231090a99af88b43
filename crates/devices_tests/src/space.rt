//! The sinks when there is no space: at exactly full, and what Collect says of it.
use crate::windows::{numbers, space, window};
use devices::Sink;
use link::{Collected, Link};
use std::test::Fail;

#[test]
fn exactly_full_of_bytes(rt: HostRuntime) -> Result<(), Fail> {
    let mut s = Sink::plain(rt.alloc(), space(5, 10))?;
    s.restart(0, numbers());
    s.send(0, 0, &[1, 2, 3, 4]);
    s.send(0, 1, &[5]);
    assert!(rt; s.taken_bytes().len() == 5);
    assert!(rt; s.collect(0) == Collected::Vector(0x3C));
    // An empty packet still fits, one byte more does not.
    s.send(0, 2, &[]);
    assert!(rt; s.collect(0) == Collected::Vector(0x78));
    s.send(0, 3, &[6]);
    assert!(rt; s.collect(0) == Collected::NotReady);
    assert!(rt; s.taken_lengths().len() == 3);
    Ok(())
}

#[test]
fn exactly_full_of_lengths(rt: HostRuntime) -> Result<(), Fail> {
    let mut s = Sink::plain(rt.alloc(), space(100, 2))?;
    s.restart(0, numbers());
    s.send(0, 0, &[1]);
    s.send(0, 1, &[2]);
    assert!(rt; s.collect(0) == Collected::Vector(0x3C));
    s.send(0, 2, &[]);
    assert!(rt; s.collect(0) == Collected::NotReady);
    // Each Collect forgets the Sends before it.
    assert!(rt; s.collect(0) == Collected::Vector(0x3C));
    s.restart(0, numbers());
    s.send(0, 0, &[1]);
    assert!(rt; s.collect(0) == Collected::Vector(0x1E));
    Ok(())
}

#[test]
fn no_space_at_all(rt: HostRuntime) -> Result<(), Fail> {
    let mut s = Sink::gathering(rt.alloc(), space(0, 0))?;
    s.restart(0, numbers());
    assert!(rt; s.collect(0) == Collected::Vector(0x0F));
    s.send(0, 0, &[]);
    assert!(rt; s.collect(0) == Collected::NotReady);
    assert!(rt; s.taken_lengths().is_empty());
    Ok(())
}

#[test]
fn full_packets_count_for_those_before(rt: HostRuntime) -> Result<(), Fail> {
    // Packet 1 needs 0 + 4 + its own bytes: 6 bytes have space for two of them, not for three.
    let mut s = Sink::gathering(rt.alloc(), space(6, 10))?;
    s.restart(0, numbers());
    s.send(0, 1, &[1, 2, 3]);
    assert!(rt; s.collect(0) == Collected::NotReady);
    s.send(0, 1, &[1, 2]);
    assert!(rt; s.collect(0) == Collected::Vector(0x0D));
    s.send(0, 2, &[]);
    assert!(rt; s.collect(0) == Collected::NotReady);
    // Packet 0 takes no byte: now there is space again.
    s.send(0, 0, &[]);
    assert!(rt; s.taken_lengths() == [0, 2].as_slice());
    s.send(0, 2, &[3, 4, 5, 6]);
    assert!(rt; s.taken_bytes() == [1, 2, 3, 4, 5, 6].as_slice());
    assert!(rt; s.collect(0) == Collected::Vector(0x78));
    Ok(())
}

#[test]
fn one_send_that_did_not_lack_space(rt: HostRuntime) -> Result<(), Fail> {
    let mut s = Sink::plain(rt.alloc(), space(1, 10))?;
    s.restart(0, numbers());
    s.send(0, 0, &[1]);
    assert!(rt; s.collect(0) == Collected::Vector(0x1E));
    // Lacking, then one outside the window: not each lacked space.
    s.send(0, 1, &[2]);
    s.send(0, 7, &[2]);
    assert!(rt; s.collect(0) == Collected::Vector(0x1E));
    // One longer than P, and one that was taken, neither lacks space.
    s.send(0, 1, &[1, 2, 3, 4, 5]);
    s.send(0, 1, &[2]);
    assert!(rt; s.collect(0) == Collected::Vector(0x1E));
    s.send(0, 0, &[2]);
    s.send(0, 1, &[2]);
    assert!(rt; s.collect(0) == Collected::Vector(0x1E));
    s.send(0, 1, &[2]);
    s.send(0, 2, &[2]);
    assert!(rt; s.collect(0) == Collected::NotReady);
    Ok(())
}

#[test]
fn a_restart_out_of_bounds_forgets_nothing(rt: HostRuntime) -> Result<(), Fail> {
    let mut s = Sink::plain(rt.alloc(), space(0, 10))?;
    s.restart(0, numbers());
    s.send(0, 0, &[1]);
    s.restart(0, window(4, 0, 8));
    assert!(rt; s.collect(0) == Collected::NotReady);
    s.send(0, 0, &[1]);
    s.restart(0, numbers());
    assert!(rt; s.collect(0) == Collected::Vector(0x0F));
    Ok(())
}
