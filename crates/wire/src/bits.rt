//! Fields of bytes.

ghost use Rattle.std.specs.Prelude.{◌≡◌, ◌+◌, ◌<◌, length};
ghost use Rattle.protocol.specs.Bytes.{bit, word as word_at};

/// Bit `k` of a byte, counted from the least significant.
pub(crate) fn has_bit(byte: u8, k: u32) -> bool
    requires { k < 8 }
    ensures { result ≡ bit k byte }
{
    (byte >> k) % 2 == 1
}

/// The number of 16 bits that begins at byte `i`, most significant byte first.
pub(crate) fn word(bytes: &[u8], i: usize) -> u16
    requires { i + 1 < length bytes.now }
    ensures { result ≡ word_at bytes.now i }
{
    u16::from_be_bytes([bytes[i], bytes[i + 1]])
}
