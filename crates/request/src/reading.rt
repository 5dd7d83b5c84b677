//! A request read: first the message as such, then its AVPs for each fault in turn, then what they ask.
ghost use Rattle.std.specs.Prelude.{◌≡◌, Some, None, MatchOption, MatchResult};
ghost use Rattle.std.specs.Option.{option_map};
ghost use Rattle.diameter.specs.Lists.{avps, first_such};
ghost use Rattle.diameter.specs.Views.{avp_of, found};
ghost use Rattle.dictionary.specs.Addresses.{address_in};
ghost use Rattle.fieldset.specs.declared.set.BitSet.{BitSet};
ghost use Rattle.request.specs.Faults.{is, first, is_session, subscribes, deadline, foreign};
ghost use Rattle.request.specs.Askings.{copied, lacks, subject_of, refused, rejected_of, asked_of, asking_of, reading_of};
ghost use Rattle.request.specs.Readings.{with_first, first_fault, faults, payload_at, requested, events, end, asked, by_address, asking, reading, right_session, session_id};

use crate::asking::{Asked, FaultyAvp, Rejection, Request, Target};
use crate::body::Body;
use diameter::avp::AvpView;
use diameter::search::AvpTest;
use diameter::sound::is_sound;
use dictionary::address::read_address;
use dictionary::known::Known;
use dictionary::number::{Time, named_event, named_time, requested_field, word};
use e2::{Command, REQUEST_LEVELS, check};
use fieldset::{EventSet, FieldSet};
use refusal::Refusal;

/// The refusal of a request for this AVP, which stands in it.
fn refused_for<'a>(refusal: Refusal, avp: AvpView<'a>) -> Rejection<'a>
    ensures { rejected_of result ≡ record { refusal = refusal; carries = copied (avp_of avp.entry) } }
{
    Rejection {
        refusal,
        faulty: Some(FaultyAvp::Present(avp)),
    }
}

/// Refuses a request with this AVP, where there is one.
fn refuse_with<'a>(refusal: Refusal, avp: Option<AvpView<'a>>) -> Result<(), Rejection<'a>>
    ensures { MatchResult result (λ _. found avp.entry ≡ None) (λ r. Some (rejected_of r) ≡ with_first (option_map copied (found avp.entry)) refusal None) }
{
    match avp {
        Some(avp) => Err(refused_for(refusal, avp)),
        None => Ok(()),
    }
}

/// Refuses a request without this AVP, where there is one.
// Not one function over `Option<FaultyAvp>`: the borrow checker does not cover `map(FaultyAvp::Present)` at the call.
fn refuse_without<'a>(missing: Option<Known>) -> Result<(), Rejection<'a>>
    ensures { MatchResult result (λ _. missing ≡ None) (λ r. Some (rejected_of r) ≡ with_first (option_map lacks missing) Refusal.MissingAvp None) }
{
    match missing {
        Some(known) => Err(Rejection {
            refusal: Refusal::MissingAvp,
            faulty: Some(FaultyAvp::Missing(known)),
        }),
        None => Ok(()),
    }
}

impl<'a> Body<'a> {
    /// Whether the request subscribes.
    fn is_subscribing(self) -> bool
        ensures { result ≡ subscribes (first_such (is Known.SubsReqType) (avps self.entry.bytes.now)) }
    {
        self.find(Known::SubsReqType)
            .is_some_and(|avp| avp.payload.len() == 4 && word(avp.payload) == 0)
    }

    /// The time that an end has to be later than.
    fn deadline(self, command: Command, time: Time) -> Option<Time>
        ensures { result ≡ deadline command time (avps self.entry.bytes.now) }
    {
        match command {
            Command::UserData => None,
            Command::SubscribeNotifications => self.is_subscribing().then_some(time),
        }
    }

    /// Whether the first AVP is the Session-Id.
    fn is_headed(self) -> bool
        ensures { result ≡ is_session (first (avps self.entry.bytes.now)) }
    {
        self.first().is_some_and(|avp| Known::SessionId.passes(avp))
    }

    /// The AF-Application-Identifier, where it is not this name.
    fn foreign(self, name: &[u8]) -> Option<AvpView<'a>>
        ensures { found result ≡ foreign name.now (avps self.entry.bytes.now) }
    {
        self.find(Known::AfApplicationIdentifier)
            .filter(|avp| avp.payload != name)
    }

    /// Refuses a request for the first fault of its AVPs, where there is one.
    fn check(self, command: Command, name: &[u8], time: Time) -> Result<(), Rejection<'a>>
        ensures { refused result ≡ first_fault (faults command name.now time (avps self.entry.bytes.now)) }
    {
        let scan = self
            .scan(self.deadline(command, time))
            .map_err(|stranger| refused_for(Refusal::UnsupportedAvp, stranger))?;
        refuse_with(Refusal::RepeatedAvp, scan.repeat)?;
        refuse_without(scan.missing(command, self.is_headed()))?;
        refuse_with(Refusal::WrongAvp, scan.misfit)?;
        refuse_with(Refusal::WrongAf, self.foreign(name))
    }

    /// Which session the AVPs are about.
    fn target(self) -> Target<'a>
        ensures { subject_of result ≡ by_address (address_in (payload_at Known.GloballyUniqueAddress (avps self.entry.bytes.now))) (avps self.entry.bytes.now) }
    {
        match read_address(self.payload(Known::GloballyUniqueAddress)) {
            Some(address) => Target::Address(address),
            None => Target::User(self.payload(Known::UserName)),
        }
    }

    /// The fields that are asked for, where some are.
    fn requested(self) -> Option<FieldSet>
        ensures { option_map (λ (s : BitSet 10). s.bits) result ≡ requested (avps self.entry.bytes.now) }
    {
        if self.has(Known::RequestedInformation) {
            Some(self.union(Known::RequestedInformation, requested_field))
        } else {
            None
        }
    }

    /// The events that are named.
    fn events(self) -> EventSet
        ensures { result.bits ≡ events (avps self.entry.bytes.now) }
    {
        self.union(Known::EventType, named_event)
    }

    /// The end of a subscription, where there is one.
    fn end(self) -> Option<Time>
        ensures { result ≡ end (avps self.entry.bytes.now) }
    {
        self.find(Known::ExpiryTime)
            .map(|avp| named_time(word(avp.payload)))
    }

    /// What the AVPs ask.
    fn asked(self, command: Command) -> Asked
        ensures { asked_of result ≡ asked command (avps self.entry.bytes.now) }
    {
        match command {
            Command::UserData => Asked::UserData {
                requested: self.requested(),
            },
            Command::SubscribeNotifications if self.is_subscribing() => Asked::Subscribe {
                events: self.events(),
                end: self.end(),
            },
            Command::SubscribeNotifications => Asked::Unsubscribe {
                events: self.events(),
            },
        }
    }

    /// A request without fault, read.
    fn request(self, command: Command) -> Request<'a>
        ensures { asking_of result ≡ asking command (avps self.entry.bytes.now) }
    {
        Request {
            asked: self.asked(command),
            target: self.target(),
            host: self.payload(Known::OriginHost),
            realm: self.payload(Known::OriginRealm),
        }
    }

    /// The data of the first AVP, where it is a right Session-Id.
    fn session_id(self) -> Option<&'a [u8]>
        ensures { MatchOption result (right_session (first (avps self.entry.bytes.now)) ≡ None) (λ s. right_session (first (avps self.entry.bytes.now)) ≡ Some s.now) }
    {
        let avp = self.first()?;
        let is_right = Known::SessionId.passes(avp) && Known::SessionId.fits(avp.payload, None);
        is_right.then_some(avp.payload)
    }
}

/// The Session-Id of a message: the data of its first AVP, where its AVPs are sound and that is a right Session-Id.
pub fn session_id<'a>(message: &'a [u8]) -> Option<&'a [u8]>
    ensures { MatchOption result (session_id message.now ≡ None) (λ s. session_id message.now ≡ Some s.now) }
{
    let body = Body::of(message);
    if is_sound(body.bytes, REQUEST_LEVELS) {
        body.session_id()
    } else {
        None
    }
}

/// What a message of the application function `name` says at this time: a request, or the first refusal that applies with what its
/// answer carries.
pub fn read_request<'a>(
    message: &'a [u8],
    name: &[u8],
    time: Time,
) -> Result<Request<'a>, Rejection<'a>>
    ensures { reading_of result ≡ reading message.now name.now time }
{
    let command = check(message)?;
    let body = Body::of(message);
    body.check(command, name, time)?;
    Ok(body.request(command))
}
