//! What a queue notes of each PDU that it holds.

/// Where a PDU stands in a queue's store, its length in bytes, and its age in Puts and Skips.
#[derive(Clone, Copy)]
pub struct Entry {
    pub place: usize,
    pub length: usize,
    pub age: u8,
}
