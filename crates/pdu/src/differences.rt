//! Comparing bytes.

ghost use Rattle.std.specs.Prelude.{◌≡◌, All, length, IfOk};
ghost use Rattle.pdu.specs.Compared.{Compares, Real};

use std::alloc::{AllocError, Global};

/// A byte in which two texts differ, and in which bits.
#[derive(Clone, Copy)]
pub(crate) struct Difference {
    pub(crate) place: usize,
    pub(crate) bits: u8,
}

/// How the bytes that were written compare with those that were read.
#[derive(Drop)]
pub(crate) enum Comparison {
    Equal,
    Length(usize),
    Differs(Vec<Difference>),
}

/// The bytes in which two texts of one length differ.
fn differences(heap: Global, written: &[u8], read: &[u8]) -> Result<Vec<Difference>, AllocError>
    requires { length written.now ≡ length read.now }
    ensures { IfOk result (λ v. All (Real written.now read.now) v.items) }
{
    // As one chain with `filter` the search for the proof breaks off at its limit.
    let mut list = Vec::new(heap);
    for (place, (ours, theirs)) in written.iter().zip(read).enumerate() {
        let bits = *ours ^ *theirs;
        if bits != 0 {
            list.push(Difference { place, bits })?;
        }
    }
    Ok(list)
}

impl Comparison {
    pub(crate) fn new(heap: Global, written: &[u8], read: &[u8]) -> Result<Comparison, AllocError>
        ensures { IfOk result (λ c. Compares written.now read.now c) }
    {
        if written == read {
            return Ok(Comparison::Equal);
        }
        if written.len() != read.len() {
            return Ok(Comparison::Length(written.len()));
        }
        Ok(Comparison::Differs(differences(heap, written, read)?))
    }
}
