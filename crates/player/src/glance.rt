//! What people see of bytes: how many, a checksum, and the first sixteen.
ghost use Rattle.std.specs.Prelude.{◌≡◌};
ghost use Rattle.player.specs.Checksums.{fnv_of};

use std::fmt;

/// The 64-bit FNV-1a checksum of bytes.
pub fn fnv(bytes: &[u8]) -> u64
    ensures { result ≡ fnv_of bytes.now }
{
    bytes.iter().fold(0xcbf2_9ce4_8422_2325, |hash, byte| {
        (hash ^ u64::from(*byte)).wrapping_mul(0x100_0000_01b3)
    })
}

/// Bytes in hexadecimal, two digits to a byte.
#[derive(Clone, Copy)]
pub struct Hex<'a> {
    pub bytes: &'a [u8],
}

impl fmt::Display for Hex<'_> {
    fn fmt<W: fmt::Write>(&self, f: &mut fmt::Formatter<W>) -> fmt::Result {
        for byte in self.bytes {
            write!(f, "{byte:02x}")?;
        }
        Ok(())
    }
}

/// How many bytes, their checksum, and the first sixteen with `..` if there are more.
#[derive(Clone, Copy)]
pub struct Glance<'a> {
    pub bytes: &'a [u8],
}

impl fmt::Display for Glance<'_> {
    fn fmt<W: fmt::Write>(&self, f: &mut fmt::Formatter<W>) -> fmt::Result {
        let count = self.bytes.len();
        let sum = fnv(self.bytes);
        write!(f, "{count} bytes, fnv {sum:016x}")?;
        if count == 0 {
            return Ok(());
        }
        let hex = Hex {
            bytes: &self.bytes[..count.min(16)],
        };
        let more = if count > 16 { ".." } else { "" };
        write!(f, ", {hex}{more}")
    }
}
