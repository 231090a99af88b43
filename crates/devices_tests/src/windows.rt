//! Windows that the tests begin terms with, and space for sinks.
use devices::Space;
use link::Window;

/// A window of these numbers.
pub fn window(packet: u16, burst: u8, range: u8) -> Window {
    Window {
        packet,
        burst,
        range,
    }
}

/// Packets of 4 bytes, a burst of 4, numbers 0 to 7.
pub fn numbers() -> Window {
    window(4, 4, 8)
}

/// Space for so many bytes and packets.
pub fn space(bytes: usize, packets: usize) -> Space {
    Space { bytes, packets }
}
