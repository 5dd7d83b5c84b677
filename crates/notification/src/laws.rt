//! The laws of notifications, each on the contract of a function.
ghost use Rattle.notification.specs.Laws.{NotificationsFit, NotificationsSound, NotificationsReadBack, HeaderWorked, AddressesReadBack, EventsReadBack};

/// A notification fits the buffer.
#[tactic(auto, using(crate::proofs::Bodies::notifications_fit))]
pub fn notifications_fit()
    ensures { NotificationsFit }
{}

/// The AVPs of a notification are sound at four levels, if the value told is sound at three.
#[tactic(auto, using(crate::proofs::Bodies::notifications_sound))]
pub fn notifications_sound()
    ensures { NotificationsSound }
{}

/// The AVPs of a notification are read back as they were written.
#[tactic(auto, using(crate::proofs::Bodies::notifications_read_back))]
pub fn notifications_read_back()
    ensures { NotificationsReadBack }
{}

/// The header of a notification is that of a Push-Notification-Request, with the serial in both identifiers.
#[tactic(auto, using(crate::proofs::Bodies::header_worked))]
pub fn header_worked()
    ensures { HeaderWorked }
{}

/// An address that is written is read back.
#[tactic(auto, using(crate::proofs::Bodies::addresses_read_back))]
pub fn addresses_read_back()
    ensures { AddressesReadBack }
{}

/// An event that is written is read back.
#[tactic(auto, using(crate::proofs::Bodies::events_read_back))]
pub fn events_read_back()
    ensures { EventsReadBack }
{}
