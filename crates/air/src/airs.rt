//! What an air is, and what 64 Skips make of any.

ghost use Rattle.std.specs.Prelude.{◌≡◌, ℕ, List, [], Option as Maybe};
ghost use Rattle.air.specs.Meaning.{Sound, Answers};
ghost use Rattle.protocol.specs.Airs.{Waiting, Within, carries, aged, after_put, takes};
ghost use Rattle.protocol.specs.Bytes.{Bytes};

/// The longest PDU that an air carries, in bytes.
pub const MAX_PDU: usize = 520;

/// A PDU that grows to this age is lost.
pub const AGE_LIMIT: u8 = 64;

/// The largest draw that a Take takes.
pub const MAX_DRAW: u16 = 8191;

/// Carries PDUs of 1 to 520 bytes one way. It may lose, repeat and reorder them; it alters none, and lets
/// none out that is 64 or more Puts and Skips old.
pub trait Air {
    // What waits, oldest first.
    ghost waiting: { Self → List Waiting };

    // What exactly an operation does, where an air says more than the meaning of every air.
    ghost puts: { Self → Bytes → Self → Type 0 } = { λ _ _ _. Unit {0} };

    ghost skips: { Self → Self → Type 0 } = { λ _ _. Unit {0} };

    ghost gives: { Self → ℕ → Bytes → Maybe ℕ → Bytes → Self → Type 0 } = { λ _ _ _ _ _ _. Unit {0} };

    /// All that waits grows older by one, and `pdu` waits at age 0. A PDU of a length that the air does not
    /// carry makes it a Skip.
    fn put(&mut self, pdu: &[u8])
        ensures meaning { Within (waiting self.new) (after_put pdu.now (waiting self.old)) }
        ensures exact { puts self.old pdu.now self.new };

    /// As Put, with no PDU.
    fn skip(&mut self)
        ensures meaning { Within (waiting self.new) (aged (waiting self.old)) }
        ensures exact { skips self.old self.new };

    /// Writes one PDU that waits, if it lets one out, at the buffer's start, and answers its length. A draw
    /// above 8191 or a buffer under 520 bytes gets none and changes nothing.
    fn take(&mut self, draw: u16, buffer: &mut [u8]) -> Option<usize>
        ensures meaning { Answers draw buffer.old result buffer.new (waiting self.old) (waiting self.new) }
        ensures exact { gives self.old draw buffer.old result buffer.new self.new };

    ghost sound: { (air : Self) → Sound (waiting air) };
}

/// Whether an air carries a PDU of this length.
pub(crate) fn carries(pdu: &[u8]) -> bool
    ensures { result ≡ carries pdu.now }
{
    !pdu.is_empty() && pdu.len() <= MAX_PDU
}

/// Whether a Take takes this draw and buffer.
pub(crate) fn takes(draw: u16, buffer: &[u8]) -> bool
    ensures { result ≡ takes draw buffer.now }
{
    draw <= MAX_DRAW && buffer.len() >= MAX_PDU
}

/// Makes 64 Skips, after which nothing waits.
pub fn empty<A: Air>(air: &mut A)
    ensures { A.waiting air.new ≡ [] }
{
    for _ in 0..AGE_LIMIT {
        air.skip();
    }
}
