//! Bytes as a scenario writes them: hexadecimal digits, or a rule that makes them.
ghost use Rattle.std.specs.Prelude.{◌≡◌, map, IfOk};
ghost use Rattle.std.specs.Option.{option_map};
ghost use Rattle.std.specs.List.{range_with_len};
ghost use Rattle.lexer.specs.Parts.{parted};
ghost use Rattle.lexer.specs.declared.parts.Stop.TheVariants.{At};
ghost use Rattle.lexer.specs.Bytes.{generated, hexed, bytes_of, ruled, handed};

use crate::parts::{Stop, part_at};
use numeral::read_u64;
use std::alloc::{AllocError, Global};

// Byte k of a generated text.
fn generated_byte(start: u64, k: usize) -> u8
    ensures { result ≡ generated start k }
{
    let k = k as u64;
    ((start % 256 + k % 256 + 7 * (k / 256 % 256)) % 256) as u8
}

/// The first bytes of a generated text: byte k is start + k + 7 × floor(k / 256), modulo 256.
pub fn generate(heap: Global, count: usize, start: u64) -> Result<Vec<u8>, AllocError>
    ensures { IfOk result (λ v. v.items ≡ map (generated start) (range_with_len 0 count)) }
{
    // Room for all of them first: where `collect` finds too little for its hint, it asks for less and fills what there is.
    let mut bytes = Vec::with_capacity(heap, count)?;
    bytes.extend((0..count).map(|k| generated_byte(start, k)))?;
    Ok(bytes)
}

/// The bytes that hexadecimal digits say, if there is an even number of them and nothing else.
pub fn read_hex(heap: Global, digits: &[u8]) -> Result<Option<Vec<u8>>, AllocError>
    ensures { IfOk result (λ o. option_map (λ v. v.items) o ≡ hexed digits.now) }
{
    // Judged first: digits that say no bytes ask for no memory.
    if digits.len() % 2 != 0 || !digits.iter().all(|digit| digit.is_ascii_hexdigit()) {
        return Ok(None);
    }
    let mut bytes = vec![in heap; 0; digits.len() / 2]?;
    match hex::decode_to_slice(digits, bytes.as_mut_slice()) {
        Ok(()) => Ok(Some(bytes)),
        Err(_) => Ok(None),
    }
}

/// Bytes that a scenario hands over: written out, or made by the rule of a generated text.
#[derive(Drop)]
pub enum Data {
    Written(Vec<u8>),
    Generated(usize, u64),
}

impl Data {
    /// The bytes.
    pub fn into_bytes(self, heap: Global) -> Result<Vec<u8>, AllocError>
        ensures { IfOk result (λ v. v.items ≡ bytes_of self) }
    {
        match self {
            Data::Written(bytes) => Ok(bytes),
            Data::Generated(count, start) => generate(heap, count, start),
        }
    }
}

// A generated text of at most 16,777,216 bytes: its count and its start.
fn read_rule(rule: &[u8]) -> Option<Data>
    ensures { option_map bytes_of result ≡ ruled (parted (At 58) rule.now) }
{
    let (count, start) = part_at(rule, Stop::At(b':'))?;
    let count = read_u64(count)?;
    let start = read_u64(start)?;
    (count <= 16_777_216).then_some(Data::Generated(count as usize, start))
}

/// Bytes as a word writes them: hex: and digits, or gen:N:S.
pub fn read_data(heap: Global, word: &[u8]) -> Result<Option<Data>, AllocError>
    ensures { IfOk result (λ o. option_map bytes_of o ≡ handed word.now) }
{
    if let Some(digits) = word.strip_prefix(b"hex:") {
        return Ok(read_hex(heap, digits)?.map(Data::Written));
    }
    Ok(word.strip_prefix(b"gen:").and_then(read_rule))
}
