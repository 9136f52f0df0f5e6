//! The settings of a link, and the timers that run by them.
#![tactic(auto)]

mod settings;
mod timers;

pub use settings::Settings;
pub use timers::Timer;
