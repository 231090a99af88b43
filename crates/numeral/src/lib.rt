//! Numbers as a scenario writes them: decimal digits, or hexadecimal ones after 0x.
#![tactic(auto)]

ghost use Rattle.std.specs.Prelude.{◌≡◌, ◌^◌, ◌≤◌, None, MatchOption};
ghost use Rattle.std.specs.Result.{result_ok};
ghost use Rattle.numeral.specs.Numbers.{digit, digit_below, extended, numeral, number, narrow};

/// The value of a digit of either case, if the byte is one.
pub fn digit_of(byte: u8) -> Option<u8>
    ensures { result ≡ digit byte }
{
    char::from(byte).to_digit(16).map(|digit| digit as u8)
}

// The value of a digit of the base, if the byte is one.
fn digit_in(base: u64, byte: u8) -> Option<u64>
    ensures { result ≡ digit_below base (digit byte) }
{
    digit_of(byte).map(u64::from).filter(|digit| *digit < base)
}

// A value with one more digit of the base, if the byte is one and the result is below 2^64.
fn with_digit(base: u64, value: u64, byte: u8) -> Option<u64>
    ensures { result ≡ extended base value byte }
{
    let digit = digit_in(base, byte)?;
    value.checked_mul(base)?.checked_add(digit)
}

// The number that digits of a base say, if they say one below 2^64. Not by `from_str_radix`, which takes a sign too.
fn numeral_of(base: u64, digits: &[u8]) -> Option<u64>
    requires { 1 ≤ base }
    ensures { result ≡ numeral base digits.now }
{
    if digits.is_empty() {
        return None;
    }
    digits
        .iter()
        .try_fold(0, |value, byte| with_digit(base, value, *byte))
}

/// The number that a word says, if it says one below 2^64: hexadecimal after 0x, else decimal.
pub fn read_u64(word: &[u8]) -> Option<u64>
    ensures { result ≡ number word.now }
{
    match word.strip_prefix(b"0x") {
        Some(digits) => numeral_of(16, digits),
        None => numeral_of(10, word),
    }
}

// The number that a word says, if the type holds it. Callers have each bound from the function named for it below, since
// here the type alone says which numbers it holds.
fn read<T: TryFrom<u64>>(word: &[u8]) -> Option<T>
where
    T::Error: Drop,
    ensures { MatchOption (number word.now) (result ≡ None) (λ n. (r : _) × T.try_from_gives n r × (result ≡ result_ok r)) }
{
    T::try_from(read_u64(word)?).ok()
}

/// The number that a word says, if it is below 2^32.
pub fn read_u32(word: &[u8]) -> Option<u32>
    ensures { result ≡ narrow (2 ^ 32) (number word.now) }
{
    read::<u32>(word)
}

/// The number that a word says, if it is below 2^16.
pub fn read_u16(word: &[u8]) -> Option<u16>
    ensures { result ≡ narrow (2 ^ 16) (number word.now) }
{
    read::<u16>(word)
}

/// The number that a word says, if it is below 2^8.
pub fn read_u8(word: &[u8]) -> Option<u8>
    ensures { result ≡ narrow (2 ^ 8) (number word.now) }
{
    read::<u8>(word)
}
