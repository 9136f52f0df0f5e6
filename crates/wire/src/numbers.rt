//! Sequence numbers, and the counts that they stand for.

ghost use Rattle.std.specs.Prelude.{◌≡◌, ◌%◌, ◌<◌};
ghost use Rattle.protocol.specs.Numbers.{sn_modulus, count_from, pdcp_count};
ghost use Rattle.std.specs.Option.{option_map};

use crate::counts::{PdcpCount, RlcCount};

/// A 12-bit sequence number, of RLC or of PDCP.
#[derive(Clone, Copy)]
pub struct Sn {
    value: u16,
    ghost short: { value < sn_modulus },
}

impl Sn {
    ghost use Rattle.wire.specs.Counts.{sn_of, count_of, held, held_if};

    /// The number of 12 bits that these 16 end in.
    pub fn new(value: u16) -> Sn
        ensures { sn_of result ≡ value % sn_modulus }
    {
        Sn {
            value: value % 4096,
        }
    }

    pub fn value(self) -> u16
        ensures { result ≡ sn_of self }
    {
        self.value
    }

    /// The RLC count that this number stands for in the window that begins at `base`;
    /// none past the largest count that 32 bits hold.
    pub fn rlc_count(self, base: RlcCount) -> Option<RlcCount>
        ensures { option_map count_of result ≡ held (count_from sn_modulus (count_of base) (sn_of self)) }
    {
        let ahead = (u32::from(self.value()) + 4096 - base.value() % 4096) % 4096;
        base.plus(ahead)
    }

    /// The COUNT next to RX_DELIV that this number stands for;
    /// none below 0, or past the largest count that 32 bits hold.
    pub fn pdcp_count(self, rx_deliv: PdcpCount) -> Option<PdcpCount>
        ensures { option_map count_of result ≡ held_if (pdcp_count sn_modulus 2048 (count_of rx_deliv) (sn_of self)) }
    {
        let number = u32::from(self.value());
        let deliv = rx_deliv.value() % 4096;
        let hfn = rx_deliv.value() / 4096;
        let hfn = if number + 2048 < deliv {
            hfn + 1
        } else if number < deliv + 2048 {
            hfn
        } else {
            hfn.checked_sub(1)?
        };
        let count = hfn.checked_mul(4096)?.checked_add(number)?;
        PdcpCount::first().plus(count)
    }
}
