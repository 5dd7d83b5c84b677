//! A request read: what is asked, of which session and by whom, or the first refusal with what its answer carries.
#![tactic(auto)]

pub mod asking;
mod body;
mod fault;
pub mod number;
pub mod reading;
mod scan;
