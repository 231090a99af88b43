//! Words of sequence numbers at the wrap.
use window::{SequenceRange, low_bits};

#[test]
fn asks_over_the_wrap(rt: HostRuntime) {
    // Four offsets from number 6 of 8: 6, 7, 0 and 1; then 1, 2 and 7 once 6 and 0 are there.
    for (wanted, next, range, word) in [
        (0b1111, 6, 8, 0xC3),
        (0b1101, 7, 8, 0x86),
        (1, 0, 32, 1),
        (0xFFFF, 16, 32, 0xFFFF_0000),
        (0xFFFF, 31, 32, 0x8000_7FFF),
        (0, 3, 8, 0),
    ] {
        assert_eq!(rt; SequenceRange::new(range).asking(wanted, next), word);
    }
}

#[test]
fn asks_within_any_range(rt: HostRuntime) {
    // Offsets at or above the range are not asked for; 33 counts as 32; with no numbers there is no bit.
    for (wanted, next, range, word) in [
        (0b111, 0, 2, 0b11),
        (0b101, 1, 1, 1),
        (1, 31, 33, 0x8000_0000),
        (1, 255, 255, 0x8000_0000),
        (0xFFFF, 9, 0, 0),
    ] {
        assert_eq!(rt; SequenceRange::new(range).asking(wanted, next), word);
    }
}

#[test]
fn reads_a_vector_over_the_wrap(rt: HostRuntime) {
    // From number 6 of 8 the vector 86h has one clear bit before the first set one, and the offset after that one is clear.
    for (vector, first, range, clear) in [
        (0x86, 6, 8, 1),
        (0x86, 0, 8, 1),
        (1, 1, 32, 31),
        (0x8000_0000, 31, 32, 0),
    ] {
        assert_eq!(rt;
            SequenceRange::new(range).clear_before(vector, first),
            clear
        );
    }
    assert_eq!(rt; SequenceRange::new(8).clear_after(0x86, 6, 4), 0b010);
}

#[test]
fn reads_a_vector_with_no_bit(rt: HostRuntime) {
    for (vector, first, range, clear) in [
        (0, 6, 8, 8),
        (0x100, 0, 8, 8),
        (0, 40, 200, 32),
        (7, 0, 0, 0),
    ] {
        assert_eq!(rt;
            SequenceRange::new(range).clear_before(vector, first),
            clear
        );
    }
    assert_eq!(rt; SequenceRange::new(8).clear_after(0, 6, 4), 0);
    assert_eq!(rt; SequenceRange::new(8).clear_after(0b1, 0, 200), 0b1111_1110);
}

#[test]
fn turns_words(rt: HostRuntime) {
    for (word, first, range, turned) in [
        (0b1100_0011, 6, 8, 0b0000_1111),
        (0xABCD_EF01, 0, 32, 0xABCD_EF01),
        (0xABCD_EF01, 8, 32, 0x01AB_CDEF),
        (0xFFFF_FFFF, 3, 5, 0x1F),
        (0xFFFF_FFFF, 3, 0, 0),
    ] {
        assert_eq!(rt; SequenceRange::new(range).turn(word, first), turned);
    }
    for (count, low) in [(32, 0xFFFF_FFFF), (31, 0x7FFF_FFFF), (0, 0)] {
        assert_eq!(rt; low_bits(0xFFFF_FFFF, count), low);
    }
}
