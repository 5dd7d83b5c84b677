//! The repository as a whole: what each call answers and leaves, and the laws over any history.
#![tactic(auto)]

pub mod laws;
