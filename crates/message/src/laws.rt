//! The laws of these AVPs, each on the contract of a function.
ghost use Rattle.message.specs.Laws.{GroupFields, ApplicationWorked};

/// The groups among the fields are 1, 3, 7 and 8.
#[tactic(auto, using(crate::proofs::Parts::group_fields))]
pub fn group_fields()
    ensures { GroupFields }
{}

/// The 32 bytes that every message carries are the Vendor-Specific-Application-Id of e2.
pub fn application_worked()
    ensures { ApplicationWorked }
{}
