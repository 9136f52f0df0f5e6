//! Short series of PDUs, Ticks and grants at the far end, run on its code.
#![tactic(auto)]

#[cfg(test)]
mod tests;
