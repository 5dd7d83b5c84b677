//! What answers and notifications have in common: sections of a message, and the AVPs that every message carries.
#![tactic(auto)]

pub mod kind;
pub mod laws;
mod origin;
pub mod section;
pub mod sender;

pub use origin::Origin;
