//! Answers to requests: parts are added to a draft, closing it fixes its length, and only a closed answer is written.
#![tactic(auto)]

mod answer;
mod content;
mod draft;
mod failed;
mod fields;
mod front;
pub mod laws;
mod source;
#[cfg(test)]
mod tests;

pub use draft::{Closed, Draft};
pub use source::{FieldSource, NoFields};
