//! Numbers of a term, room for a packet, and the lamp's vector, at their bounds.
use example_link::Lamp;
use link::{Collected, Link, Packet, TooLong, Window};

fn sound(packet: u16, burst: u8, range: u8) -> bool {
    let window = Window {
        packet,
        burst,
        range,
    };
    window.is_sound()
}

#[test]
fn numbers_of_a_term(rt: HostRuntime) {
    assert!(rt; sound(1, 1, 2));
    assert!(rt; sound(3584, 16, 32));
    assert!(rt; sound(512, 4, 8));
    assert!(rt; !sound(512, 4, 7));
    assert!(rt; !sound(0, 4, 8));
    assert!(rt; !sound(3585, 4, 8));
    assert!(rt; !sound(512, 0, 8));
    assert!(rt; !sound(512, 17, 34));
    assert!(rt; !sound(512, 17, 32));
    assert!(rt; !sound(512, 1, 1));
    assert!(rt; !sound(512, 4, 33));
    assert!(rt; !sound(512, 200, 144));
}

#[test]
fn room_for_a_packet(rt: HostRuntime) {
    let long = [7; 3585];
    let mut packet = Packet::new();
    assert_eq!(rt; packet.bytes().len(), 0);
    assert_eq!(rt; packet.fill(&long[1..]), Ok(()));
    assert_eq!(rt; packet.bytes().len(), 3584);
    assert_eq!(rt; packet.fill(&long), Err(TooLong));
    assert_eq!(rt; packet.bytes().len(), 3584);
    assert_eq!(rt; packet.fill(&[]), Ok(()));
    assert_eq!(rt; packet.bytes().len(), 0);
}

#[test]
fn vectors_of_the_lamp(rt: HostRuntime) {
    let window = Window {
        packet: 1,
        burst: 16,
        range: 32,
    };
    let mut lamp = Lamp::new();
    assert_eq!(rt; lamp.collect(0), Collected::Stall);
    lamp.send(0, 0, &[5]);
    assert_eq!(rt; lamp.shows(), None);
    lamp.restart(0, window);
    assert_eq!(rt; lamp.collect(0), Collected::Vector(0xFFFF));
    lamp.send(0, 1, &[5]);
    lamp.send(0, 32, &[5]);
    lamp.send(0, 0, &[5, 6]);
    assert_eq!(rt; lamp.collect(0), Collected::Vector(0xFFFF));
    lamp.send(0, 0, &[5]);
    assert_eq!(rt; lamp.shows(), Some(5));
    assert_eq!(rt; lamp.collect(0), Collected::Vector(0x1FFFE));
    assert_eq!(rt; lamp.collect(1), Collected::Stall);
}
