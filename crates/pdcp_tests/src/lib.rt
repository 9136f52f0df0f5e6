//! Series of PDCP's calls with the answers that the rules give.
#![tactic(auto)]

#[cfg(test)]
mod tests;
