//! An air that loses what its mask says.

ghost use Rattle.std.specs.Prelude.{◌≡◌, ◌<◌, MatchBool};
ghost use Rattle.air.specs.Fading.{passes, number_after};
ghost use Rattle.protocol.specs.Airs.{Within, aged, after_put};

use crate::airs::{Air, carries};

/// Stands over another air. A Put whose bit in the mask is set becomes a Skip below, so that what waits
/// there still grows older.
#[derive(Drop)]
pub struct Fade<A> {
    below: A,
    mask: u64,
    // The number of the next Put, modulo 64: its bit in the mask.
    number: u32,
    ghost within: { number < 64 },
}

impl<A: Air> Fade<A> {
    pub fn new(below: A, mask: u64) -> Self
        ensures below { result.below ≡ below }
        ensures mask { result.mask ≡ mask }
        ensures number { result.number ≡ 0 }
    {
        Fade {
            below,
            mask,
            number: 0,
        }
    }

    pub fn below(&self) -> &A
        ensures { result.now ≡ self.now.below }
    {
        &self.below
    }

    pub fn into_below(self) -> A
        ensures { result ≡ self.below }
    {
        let Fade { below, .. } = self;
        below
    }
}

impl<A: Air> Air for Fade<A> {
    ghost waiting = { λ f. A.Air.waiting f.below };

    ghost puts = { λ f pdu f'.
        MatchBool (passes f.mask f.number pdu)
        (A.Air.puts f.below pdu f'.below × Within (A.Air.waiting f'.below) (after_put pdu (A.Air.waiting f.below)))
        (A.Air.skips f.below f'.below × Within (A.Air.waiting f'.below) (aged (A.Air.waiting f.below)))
        × (f'.mask ≡ f.mask) × (f'.number ≡ number_after pdu f.number) };

    ghost skips = { λ f f'. A.Air.skips f.below f'.below × (f'.mask ≡ f.mask) × (f'.number ≡ f.number) };

    ghost gives = { λ f draw buffer answer written f'.
        A.Air.gives f.below draw buffer answer written f'.below × (f'.mask ≡ f.mask) × (f'.number ≡ f.number) };

    ghost sound = { λ f. A.Air.sound f.below };

    fn put(&mut self, pdu: &[u8]) {
        if !carries(pdu) {
            return self.below.skip();
        }
        let lost = (self.mask >> self.number) & 1 == 1;
        self.number = (self.number + 1) % 64;
        if lost {
            self.below.skip();
        } else {
            self.below.put(pdu);
        }
    }

    fn skip(&mut self) {
        self.below.skip();
    }

    fn take(&mut self, draw: u16, buffer: &mut [u8]) -> Option<usize> {
        self.below.take(draw, buffer)
    }
}
