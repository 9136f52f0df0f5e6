//! Counts, as types that do not stand for one another.

ghost use Rattle.std.specs.Prelude.{◌≡◌, ◌+◌, ◌-◌, ◌%◌, ◌^◌, min};
ghost use Rattle.protocol.specs.Numbers.{sn_modulus};
ghost use Rattle.std.specs.Option.{option_map};

use crate::numbers::Sn;
use std::marker::PhantomData;

/// A count of the layer `L`: whole, and never taken for a sequence number or for a count of the other layer.
// With a model, clauses would see the number; but then a `Copy` struct that holds a count can be used once only,
// since the borrow checker does not cover a second use.
#[derive(Clone, Copy, PartialEq, Eq, PartialOrd, Ord)]
pub struct Count<L> {
    value: u32,
    layer: PhantomData<L>,
}

/// RLC counts SDUs.
#[derive(Clone, Copy, PartialEq, Eq, PartialOrd, Ord)]
pub struct Rlc;

/// PDCP counts packets.
#[derive(Clone, Copy, PartialEq, Eq, PartialOrd, Ord)]
pub struct Pdcp;

pub type RlcCount = Count<Rlc>;

pub type PdcpCount = Count<Pdcp>;

impl<L: Copy> Count<L> {
    ghost use Rattle.wire.specs.Counts.{sn_of, count_of, held};

    /// The count of the first SDU or packet.
    pub fn first() -> Count<L>
        ensures { count_of result ≡ 0 }
    {
        Count {
            value: 0,
            layer: PhantomData,
        }
    }

    pub fn value(self) -> u32
        ensures { result ≡ count_of self }
    {
        self.value
    }

    /// The count `steps` later; none past the largest count that 32 bits hold.
    pub fn plus(self, steps: u32) -> Option<Count<L>>
        ensures { option_map count_of result ≡ held (count_of self + steps) }
    {
        let value = self.value.checked_add(steps)?;
        Some(Count {
            value,
            layer: PhantomData,
        })
    }

    /// The count `steps` later, or the largest that 32 bits hold.
    pub fn saturating_plus(self, steps: u32) -> Count<L>
        ensures { count_of result ≡ min (count_of self + steps) (2 ^ 32 - 1) }
    {
        Count {
            value: self.value.saturating_add(steps),
            layer: PhantomData,
        }
    }

    /// The count before; the first count where there is none.
    pub fn previous(self) -> Count<L>
        ensures { count_of result ≡ count_of self - 1 }
    {
        Count {
            value: self.value.saturating_sub(1),
            layer: PhantomData,
        }
    }

    /// The number that stands for this count.
    pub fn sn(self) -> Sn
        ensures { sn_of result ≡ count_of self % sn_modulus }
    {
        Sn::new((self.value % 4096) as u16)
    }
}
