//! Notifications: what an application function is told of an event, written as a Push-Notification-Request.
#![tactic(auto)]

pub mod laws;
mod notice;
mod part;
#[cfg(test)]
mod tests;
mod write;

pub use notice::{Notice, Recipient};
pub use part::put_address;
pub use write::write_notification;
