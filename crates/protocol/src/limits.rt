//! The limits of a link, which the code of both ends shares.

/// The longest packet, in bytes.
pub const MAX_PACKET: usize = 500;

/// The longest SDU: a packet of 500 bytes with its PDCP header.
pub const MAX_SDU: usize = 502;

/// How many counts a window holds.
pub const WINDOW_SIZE: usize = 16;

/// How many packets a link carries in all: counts are below it.
pub const PACKET_LIMIT: u32 = 1_000_000;
