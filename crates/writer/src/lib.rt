//! Diameter messages, written: a writer that only appends, the AVPs and the header that it writes, and what holds of them.
#![tactic(auto)]

pub mod avp;
pub mod decimal;
pub mod header;
pub mod laws;
#[cfg(test)]
mod tests;
pub mod writer;
