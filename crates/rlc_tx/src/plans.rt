//! What a grant would send.

ghost use Rattle.std.specs.Prelude.{◌≡◌, ◌==◌, if◌then◌else◌};
ghost use Rattle.wire.specs.Counts.{count_of};

use wire::RlcCount;

/// Bytes of one SDU that one PDU carries.
#[derive(Clone, Copy)]
pub struct Run {
    /// The SDU's count.
    pub count: RlcCount,
    /// The number of the first byte.
    pub from: usize,
    pub size: usize,
    /// They were not sent before.
    pub new: bool,
}

impl Run {
    /// How many of its bytes are of the SDU of this count.
    pub(crate) fn size_in(self, count: RlcCount) -> usize
        ensures { result ≡ (if count_of count == count_of self.count then self.size else 0) }
    {
        if count == self.count { self.size } else { 0 }
    }
}

/// The PDU that a grant would send.
#[derive(Clone, Copy)]
pub struct Plan {
    pub run: Run,
    /// Its P bit.
    pub poll: bool,
}
