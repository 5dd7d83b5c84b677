//! The dictionary: the AVPs that a request may hold, what their data may be, and what they mean.
#![tactic(auto)]

pub mod address;
pub mod form;
pub mod known;
pub mod number;
