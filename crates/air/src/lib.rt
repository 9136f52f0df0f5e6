//! The air between the ends of a link: the trait that every air keeps, and three kinds of air.
//!
//! A pipe keeps the order of its PDUs, a pool repeats and reorders them, and a fade over another air
//! loses those that its mask says. What waits in each is stated by the definitions in `specs/`.

#![tactic(auto)]

mod airs;
mod entries;
mod fades;
mod orders;
mod queue_airs;
mod queues;

pub use airs::{AGE_LIMIT, Air, MAX_DRAW, MAX_PDU, empty};
pub use fades::Fade;
pub use queue_airs::{Pipe, Pool};
pub use queues::CAPACITY;
