//! PDUs as bytes and as text: sequence numbers, a reader of received PDUs, and writers into lent buffers; and the grants
//! that let an end send one.
#![tactic(auto)]

mod bits;
mod counts;
mod drafts;
mod entries;
mod grants;
mod numbers;
mod pdus;
mod reading;
mod shown;
mod writing;

pub use counts::{Count, Pdcp, PdcpCount, Rlc, RlcCount};
pub use drafts::{Closed, Draft, NotClosed};
pub use entries::Entries;
pub use grants::Grant;
pub use numbers::Sn;
pub use pdus::{Amd, Entry, Header, Missing, Part, Pdu, Segment, Status};
pub use protocol::{End, Fault, Layer, Refusal};
pub use reading::Reader;
pub use writing::write_amd;
