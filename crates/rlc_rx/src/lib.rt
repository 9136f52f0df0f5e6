//! RLC's receiving side at the far end: it puts SDUs together from segments and reports what is missing.
#![tactic(auto)]

mod data_pdus;
mod ends;
mod entries;
mod flags;
mod receptions;
mod reporting;
mod rings;
mod slots;
mod windows;

pub use ends::FarEnd;
pub use receptions::{Completed, Reception};
