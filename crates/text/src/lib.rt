//! Octets that are kept in place.
#![tactic(auto)]

pub mod text;
