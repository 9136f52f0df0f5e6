//! The rules of the link as definitions (`specs/`): formats, numbers, refusals, airs, both ends, PDCP, the
//! calls and series of calls; their laws, and the theorem that they deliver.
//!
//! The only code is the vocabulary that definitions and code share: who reads, what a refusal is, and the
//! limits of a link.
//! Each law stands on the contract of a small function, so that the crate is refused without its proof.
#![tactic(auto)]

mod faults;
mod laws;
mod limits;

pub use faults::{End, Fault, Layer, Refusal};
pub use laws::{
    a_lost_segment_is_recovered, arrivals_are_read, draft_writes_its_entries,
    lawful_series_deliver, pdcp_header_round_trip, read_pdu_writes_back,
    reserved_bits_are_not_read, sn_stands_for_one_count, sn_stands_for_one_pdcp_count,
    worked_examples, worked_series, written_pdu_reads_back,
};
pub use limits::{MAX_PACKET, MAX_SDU, PACKET_LIMIT, WINDOW_SIZE};
