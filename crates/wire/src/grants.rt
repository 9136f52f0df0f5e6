//! Permission to send.

ghost use Rattle.std.specs.Prelude.{◌≡◌, ◌≤◌, if◌then◌else◌, Ok, Err};
ghost use Rattle.protocol.specs.Refusals.{at as fault_at};
ghost use Rattle.protocol.specs.Settings.{between};
ghost use Rattle.protocol.specs.declared.faults.Refusal.TheVariants.{GrantSize};

use protocol::{Fault, Refusal};

/// Permission to send one PDU of at most `size` bytes. It is spent at an end or given back: a grant that
/// is let go does not build.
pub struct Grant {
    pub(crate) size: usize,
    ghost least: { 5 ≤ size },
    ghost most: { size ≤ 512 },
}

impl Grant {
    ghost use Rattle.wire.specs.Grants.{granted};

    /// Grants are of 5 to 512 bytes.
    pub fn open(size: usize) -> Result<Grant, Fault>
        ensures { granted result ≡ (if between 5 512 size then Ok size else Err (fault_at GrantSize 0)) }
    {
        if !(5..=512).contains(&size) {
            return Err(Refusal::GrantSize.at(0));
        }
        Ok(Grant { size })
    }

    pub fn size(&self) -> usize
        ensures value { result ≡ self.now.size }
        ensures least { 5 ≤ result }
        ensures most { result ≤ 512 }
    {
        self.size
    }

    /// Takes the grant back, and answers its size.
    pub fn give_back(self) -> usize
        ensures { result ≡ self.size }
    {
        let Grant { size } = self;
        size
    }
}
