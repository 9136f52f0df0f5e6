//! PDCP at the far end: packets are stored under the COUNT that their number stands for, and handed up in
//! its order.
//!
//! `Receiver` keeps the rules, its store the memory: the rules know packets by COUNT only.
#![tactic(auto)]

mod headers;
mod places;
mod receivers;
mod stores;

pub use headers::{DataPdu, read_data};
pub use receivers::Receiver;
