//! Loss, busy, joint, and a link that may be lacking: which calls take a bit, and which pass.
use example_link::Lamp;
use layers::{Busy, Joint, Loss};
use link::{Collected, Direction, Fetched, Link, Packet, PollAnswer, Window};

fn numbers() -> Window {
    Window {
        packet: 512,
        burst: 4,
        range: 8,
    }
}

#[test]
fn loss_takes_bit_after_bit(rt: HostRuntime) {
    let mut link = Loss::new(Lamp::new(), 0b0101);
    link.restart(0, numbers());
    assert_eq!(rt; link.position(), 0);
    link.send(0, 0, &[7]);
    assert_eq!(rt; link.below().shows(), None);
    link.send(0, 0, &[8]);
    assert_eq!(rt; link.below().shows(), Some(8));
    assert_eq!(rt; link.collect(0), Collected::Silence);
    assert_eq!(rt; link.collect(0), Collected::Vector(0x1E));
    assert_eq!(rt; link.position(), 4);
    link.restart(0, numbers());
    assert_eq!(rt; link.position(), 4);
}

#[test]
fn loss_takes_bits_of_calls_that_come_to_nothing(rt: HostRuntime) {
    let mut into = Packet::new();
    let mut link = Loss::new(Lamp::new(), 0b100);
    assert_eq!(rt; link.describe(9), None);
    assert_eq!(rt; link.poll(9, 1), PollAnswer::Stall);
    assert_eq!(rt; link.fetch(0, 200, &mut into), Fetched::Lost);
    assert_eq!(rt; link.poll(9, 1), PollAnswer::Silence);
    link.send(200, 0, &[1]);
    assert_eq!(rt; link.position(), 4);
}

#[test]
fn loss_goes_round(rt: HostRuntime) {
    let mut link = Loss::new(Lamp::new(), 1 << 63);
    for _ in 0..63 {
        assert_eq!(rt; link.poll(0, 1), PollAnswer::Stall);
    }
    assert_eq!(rt; link.position(), 63);
    assert_eq!(rt; link.poll(0, 1), PollAnswer::Silence);
    assert_eq!(rt; link.position(), 0);
    assert_eq!(rt; link.poll(0, 1), PollAnswer::Stall);
}

#[test]
fn busy_takes_bits_of_polls_and_collects_only(rt: HostRuntime) {
    let mut into = Packet::new();
    let mut link = Busy::new(Lamp::new(), 0b01);
    link.restart(0, numbers());
    link.send(0, 0, &[3]);
    assert_eq!(rt; link.fetch(0, 0, &mut into), Fetched::Lost);
    assert_eq!(rt; link.position(), 0);
    assert_eq!(rt; link.below().shows(), Some(3));
    assert_eq!(rt; link.collect(0), Collected::NotReady);
    assert_eq!(rt; link.collect(0), Collected::Vector(0x1E));
    assert_eq!(rt; link.poll(0, 1), PollAnswer::Stall);
    assert_eq!(rt; link.position(), 3);
}

#[test]
fn a_call_lost_above_takes_no_bit_below(rt: HostRuntime) {
    let mut link = Loss::new(Busy::new(Lamp::new(), 0b1), 0b1);
    assert_eq!(rt; link.poll(0, 1), PollAnswer::Silence);
    assert_eq!(rt; link.below().position(), 0);
    assert_eq!(rt; link.poll(0, 1), PollAnswer::NotReady);
    assert_eq!(rt; link.below().position(), 1);
    assert_eq!(rt; link.poll(0, 1), PollAnswer::Stall);
}

#[test]
fn joint_numbers_the_second_after_the_first(rt: HostRuntime) {
    let pair = Joint::new(Lamp::new(), Lamp::new());
    let mut link = Joint::new(pair, Lamp::new());
    assert_eq!(rt; link.describe(0), Some(Direction::Outward));
    assert_eq!(rt; link.describe(2), Some(Direction::Outward));
    assert_eq!(rt; link.describe(3), None);
    assert_eq!(rt; link.describe(32), None);
    assert_eq!(rt; link.describe(255), None);
    link.restart(1, numbers());
    link.send(0, 0, &[1]);
    link.send(1, 0, &[2]);
    link.send(2, 0, &[3]);
    assert_eq!(rt; link.first().first().shows(), None);
    assert_eq!(rt; link.first().second().shows(), Some(2));
    assert_eq!(rt; link.second().shows(), None);
    assert_eq!(rt; link.collect(0), Collected::Stall);
    assert_eq!(rt; link.collect(1), Collected::Vector(0x1E));
}

#[test]
fn joint_passes_nothing_down_for_absent_pipes(rt: HostRuntime) {
    let mut into = Packet::new();
    let mut link = Joint::new(Loss::new(Lamp::new(), 0), Loss::new(Lamp::new(), 0));
    assert_eq!(rt; link.poll(2, 1), PollAnswer::Stall);
    assert_eq!(rt; link.fetch(31, 0, &mut into), Fetched::Lost);
    assert_eq!(rt; link.collect(32), Collected::Stall);
    link.send(255, 0, &[1]);
    assert_eq!(rt; link.first().position(), 0);
    assert_eq!(rt; link.second().position(), 0);
    assert_eq!(rt; link.poll(1, 1), PollAnswer::Stall);
    assert_eq!(rt; link.first().position(), 0);
    assert_eq!(rt; link.second().position(), 1);
}

#[test]
fn a_lacking_link_has_no_pipe(rt: HostRuntime) {
    let mut into = Packet::new();
    let mut link: Option<Lamp> = None;
    link.restart(0, numbers());
    link.send(0, 0, &[1]);
    assert_eq!(rt; link.describe(0), None);
    assert_eq!(rt; link.poll(0, 1), PollAnswer::Stall);
    assert_eq!(rt; link.fetch(0, 0, &mut into), Fetched::Lost);
    assert_eq!(rt; link.collect(0), Collected::Stall);
}

#[test]
fn a_link_that_is_there_gets_every_call(rt: HostRuntime) {
    let mut link = Some(Loss::new(Lamp::new(), 0b1000));
    link.restart(0, numbers());
    assert_eq!(rt; link.describe(0), Some(Direction::Outward));
    link.send(0, 0, &[9]);
    assert_eq!(rt; link.collect(0), Collected::Vector(0x1E));
    assert_eq!(rt; link.poll(0, 1), PollAnswer::Stall);
    assert_eq!(rt; link.poll(0, 1), PollAnswer::Silence);
}
