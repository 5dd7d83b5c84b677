//! How an AVP stands to the dictionary, by its name and by its data.
ghost use Rattle.std.specs.Prelude.{◌≡◌};
ghost use Rattle.dictionary.specs.Forms.{fits, form, is_later};

use crate::address::read_address;
use crate::known::Known;
use crate::number::{Time, named_event, named_time, requested_field, word};
use diameter::avp::AvpView;

/// How an AVP stands to the dictionary.
// Three named cases: an `Option<Result<Known, Known>>` would say the same with less in the names.
#[derive(Clone, Copy)]
pub enum Form {
    /// It is not in it.
    Unknown,
    /// It is in it, and its data are such as it may have.
    Right(Known),
    /// It is in it, and its data are not.
    Wrong(Known),
}

/// Whether a time is later than another, where there is one.
fn is_later(after: Option<Time>, time: Time) -> bool
    ensures { result ≡ is_later after time }
{
    after.is_none_or(|now| now < time)
}

impl Known {
    /// Whether these data may stand in it; an Expiry-Time has to be later than `after`, where there is such a time.
    pub fn fits(self, payload: &[u8], after: Option<Time>) -> bool
        ensures { result ≡ fits after self payload.now }
    {
        let number = word(payload);
        match (self, payload.len()) {
            (Known::VendorSpecificApplicationId | Known::ProxyInfo, _) => true,
            (Known::GloballyUniqueAddress, _) => read_address(payload).is_some(),
            (Known::SessionId, 1..=128) => true,
            (Known::AddressRealm, 1..=32) => true,
            (Known::FramedIpAddress, 4) => true,
            (Known::AuthSessionState, 4) => number == 1,
            (Known::RequestedInformation, 4) => requested_field(number).is_some(),
            (Known::EventType, 4) => named_event(number).is_some(),
            (Known::SubsReqType, 4) => number <= 1,
            (Known::ExpiryTime, 4) => is_later(after, named_time(number)),
            (
                Known::UserName
                | Known::OriginHost
                | Known::RouteRecord
                | Known::DestinationRealm
                | Known::DestinationHost
                | Known::OriginRealm
                | Known::AfApplicationIdentifier,
                1..=64,
            ) => true,
            _ => false,
        }
    }
}

/// How an AVP stands to the dictionary; an Expiry-Time has to be later than `after`, where there is such a time.
pub fn form_of(avp: AvpView<'_>, after: Option<Time>) -> Form
    ensures { result ≡ form after avp.entry.code avp.entry.vendor avp.entry.payload.now }
{
    match Known::named(avp.name()) {
        None => Form::Unknown,
        Some(known) if known.fits(avp.payload, after) => Form::Right(known),
        Some(known) => Form::Wrong(known),
    }
}
