//! The near end: PDCP numbers packets, and RLC's transmitting side sends them until they are acknowledged.
#![tactic(auto)]

mod ends;
mod marks;
mod planning;
mod plans;
mod reporting;
mod slots;
mod spending;
mod windows;

pub use ends::{NearEnd, Report};
pub use plans::{Plan, Run};
