//! Diameter messages, read: the header, the AVPs one after the other, and whether they are sound.
#![tactic(auto)]

pub mod avp;
pub mod avps;
mod bytes;
pub mod header;
pub mod laws;
pub mod search;
pub mod sound;
