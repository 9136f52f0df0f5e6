//! Bytes from hexadecimal digits, and back.

#![tactic(auto)]

ghost use Rattle.std.specs.Prelude.{◌≡◌, ℕ, ◌+◌, ◌*◌, ◌<◌, ◌≤◌, length, take, Some, IfSome, IfOk, IsErrOf, List, vec_len, MatchOption};
ghost use Rattle.hex_digits.specs.Digits.{Digit, Byte, Spelt, Stops, digit_of, text_of};
ghost use Rattle.hex_digits.specs.declared.BadHex.TheVariants.{NoMemory};

use std::alloc::{AllocError, AllocFailed, Global};
use std::fmt;
use thiserror::Error;

/// Why digits give no bytes.
#[derive(Clone, Copy, Debug, PartialEq, Eq, Error)]
pub enum BadHex {
    #[error("odd number of hex digits")]
    OddDigits,
    #[error("a character that is no hex digit")]
    BadDigit,
    #[error("no memory")]
    NoMemory,
}

impl From<AllocError> for BadHex {
    ghost from_gives = { λ _ bad. bad ≡ NoMemory };

    fn from(_: AllocError) -> BadHex {
        BadHex::NoMemory
    }
}

impl<T: Drop> From<AllocFailed<T>> for BadHex {
    ghost from_gives = { λ _ bad. bad ≡ NoMemory };

    fn from(_: AllocFailed<T>) -> BadHex {
        BadHex::NoMemory
    }
}

/// The byte of two digits, the high one first; none if one is no hexadecimal digit.
fn byte_of(high: u8, low: u8) -> Option<u8>
    ensures { MatchOption result ((b : ℕ) → Byte high low b → ⊥) (λ b. Byte high low b) }
{
    let high = char::from(high).to_digit(16)?;
    let low = char::from(low).to_digit(16)?;
    u8::try_from(high * 16 + low).ok()
}

// Not the kit's `hex`, which tells an odd length before a bad digit.
/// The bytes of a text of digits, two for each. A bad digit among the pairs is found before an odd length.
pub fn decode(heap: Global, digits: &[u8]) -> Result<Vec<u8>, BadHex>
    ensures ok { IfOk result (λ v. (2 * vec_len v ≡ length digits.now) × Spelt digits.now v.items) }
    ensures bad { IsErrOf result BadHex.BadDigit → (bytes : List ℕ) × Stops digits.now bytes }
    ensures odd { IsErrOf result BadHex.OddDigits → (bytes : List ℕ) × (length digits.now ≡ 2 * length bytes + 1) × Spelt digits.now bytes }
{
    let mut bytes = Vec::new(heap);
    for pair in digits.chunks_exact(2) {
        bytes.push(byte_of(pair[0], pair[1]).ok_or(BadHex::BadDigit)?)?;
    }
    if digits.len() % 2 == 1 {
        return Err(BadHex::OddDigits);
    }
    Ok(bytes)
}

/// The digit of a value, the letters in lower case.
fn digit(value: u8) -> u8
    requires { value < 16 }
    ensures { result ≡ digit_of value }
{
    if value < 10 {
        b'0' + value
    } else {
        b'a' + (value - 10)
    }
}

/// How many bytes are spelt before they are written, and how many digits they have.
const PIECE: usize = 32;

const DIGITS: usize = 64;

/// The digits of at most 32 bytes, two for each, at the answer's start.
fn spell(bytes: &[u8]) -> [u8; DIGITS]
    requires { length bytes.now ≤ 32 }
    ensures { take (2 * length bytes.now) result ≡ text_of bytes.now }
{
    let mut digits = [0; DIGITS];
    for (i, byte) in bytes.iter().enumerate() {
        digits[2 * i] = digit(*byte / 16);
        digits[2 * i + 1] = digit(*byte % 16);
    }
    digits
}

/// Bytes that print as two digits each, the letters in lower case.
#[derive(Clone, Copy)]
pub struct Hex<'a>(pub &'a [u8]);

impl fmt::Display for Hex<'_> {
    ghost output = { λ hex. Some (text_of hex.0.now) };

    fn fmt<W: fmt::Write>(&self, f: &mut fmt::Formatter<W>) -> fmt::Result {
        // By pieces: `{:02x}` of each byte goes through the padding of numbers, which takes several times as long.
        for bytes in self.0.chunks(PIECE) {
            let digits = spell(bytes);
            // Digits are UTF-8, so this error never comes.
            let text = str::from_utf8(&digits[..2 * bytes.len()]).map_err(|_| fmt::Error)?;
            f.write_str(text)?;
        }
        Ok(())
    }
}
