//! A keyed table: a slice of places, each free or taken under a key. It stands for a map from keys to entries.
#![tactic(auto)]

pub mod laws;
pub mod place;
pub mod search;
pub mod step;
#[cfg(test)]
mod tests;
