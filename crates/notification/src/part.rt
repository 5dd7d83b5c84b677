//! The sections of a notification.
ghost use Rattle.std.specs.Prelude.{◌≡◌, ◌+◌, ◌≤◌, length};
ghost use Rattle.dictionary.specs.Addresses.{address_of};
ghost use Rattle.writer.specs.Avps.{avp};
ghost use Rattle.writer.specs.Stores.{Appends, room};
ghost use Rattle.notification.specs.Limits.{address_limit, place_limit, session_most};
ghost use Rattle.notification.specs.Notifications.{session_of, address_data, address_size, field_avp, peer_avps, event_avps};

use crate::notice::{Notice, Place, Recipient};
use dictionary::address::AddressView;
use dictionary::known::Known;
use fieldset::Field;
use message::Origin;
use message::section::{Avp, KnownAvp, Octets, Section};
use writer::decimal::decimal_size;
use writer::writer::Writer;

/// The text of a Session-Id: our host, the number of the application function and the serial, with semicolons between.
#[derive(Clone, Copy)]
pub(crate) struct SessionText<'o> {
    pub(crate) origin: Origin<'o>,
    pub(crate) number: u32,
    pub(crate) serial: u32,
}

impl Section for SessionText<'_> {
    ghost bytes = { λ s. session_of s.origin.host.now s.number s.serial };

    ghost most = { session_most };

    fn size(&self) -> usize {
        self.origin.host().len() + 1 + decimal_size(self.number) + 1 + decimal_size(self.serial)
    }

    fn put(&self, w: &mut Writer<'_>) {
        w.bytes(self.origin.host());
        w.byte(b';');
        w.decimal(self.number);
        w.byte(b';');
        w.decimal(self.serial);
    }
}

/// A Globally-Unique-Address: the IP address, then the realm.
pub(crate) type AddressAvp<'a> = Avp<Known, (KnownAvp<'a>, KnownAvp<'a>)>;

impl<'a> Place<'a> {
    /// The IP address, then the realm.
    fn data(self) -> (KnownAvp<'a>, KnownAvp<'a>)
        ensures { ⟦<(KnownAvp<'a>, KnownAvp<'a>) as Section>⟧.bytes result ≡ address_data (address_of self.entry.address) }
    {
        let ip = Avp::of(Known::FramedIpAddress, self.address.ip);
        let realm = Avp::of(Known::AddressRealm, self.address.realm);
        (ip, realm)
    }

    fn avp(self) -> AddressAvp<'a>
        ensures { ⟦<AddressAvp<'a> as Section>⟧.bytes result ≡ avp 300 0xC0 13019 (address_data (address_of self.entry.address)) }
    {
        Avp {
            kind: Known::GloballyUniqueAddress,
            data: self.data(),
        }
    }
}

/// The Globally-Unique-Address: the IP address, then the realm.
pub fn put_address(w: &mut Writer<'_>, address: AddressView<'_>)
    requires { (room (12 + address_size (address_of address)) w.old) × ((length address.ip.now ≤ address_limit) × (length address.realm.now ≤ place_limit)) }
    ensures wrote { Appends w.old (avp 300 0xC0 13019 (address_data (address_of address.entry))) w.new }
    ensures ends { w.new.end ≡ w.old.end + (12 + address_size (address_of address.entry)) }
{
    Place { address }.avp().put(w);
}

impl<'a> Notice<'a> {
    /// The Event-Type and the address.
    fn event_avps(self) -> (Avp<Known, u32>, AddressAvp<'a>)
        ensures { ⟦<(Avp<Known, u32>, AddressAvp<'a>) as Section>⟧.bytes result ≡ event_avps self.entry.event (address_of self.entry.place.address) }
    {
        let event = Avp {
            kind: Known::EventType,
            data: u32::from(self.event),
        };
        (event, self.place.avp())
    }

    /// The AVP of the field that the event is a change of, where its value is not empty.
    fn told_avp(self) -> Option<Avp<Field, Octets<'a>>>
        ensures { ⟦<Option<Avp<Field, Octets<'a>>> as Section>⟧.bytes result ≡ field_avp self.entry.event self.entry.value.now }
    {
        if self.event == 0 || self.event > 8 || self.value.is_empty() {
            return None;
        }
        let kind = Field::try_from(self.event).ok()?;
        Some(Avp::of(kind, self.value))
    }
}

impl<'n, 'p> Recipient<'n, 'p> {
    /// The Destination-Host and the Destination-Realm.
    fn peer_avps(self) -> (KnownAvp<'p>, KnownAvp<'p>)
        ensures { ⟦<(KnownAvp<'p>, KnownAvp<'p>) as Section>⟧.bytes result ≡ peer_avps self.entry.peer.host.now self.entry.peer.realm.now }
    {
        let host = Avp::of(Known::DestinationHost, self.peer.host());
        let realm = Avp::of(Known::DestinationRealm, self.peer.realm());
        (host, realm)
    }

    /// The name of the application function.
    pub(crate) fn name_avp(self) -> KnownAvp<'n>
        ensures { ⟦<KnownAvp<'n> as Section>⟧.bytes result ≡ avp 504 0xC0 10415 self.entry.name.now }
    {
        Avp::of(Known::AfApplicationIdentifier, self.name)
    }
}

// A section around what each of the next three holds: it keeps the bound of its bytes tight, where the types of the AVPs alone say more.

/// The Event-Type and the address of a notice.
#[derive(Clone, Copy)]
pub(crate) struct Event<'a>(pub(crate) Notice<'a>);

impl Section for Event<'_> {
    ghost bytes = { λ s. event_avps s.0.event (address_of s.0.place.address) };

    ghost most = { 84 };

    fn size(&self) -> usize {
        self.0.event_avps().size()
    }

    fn put(&self, w: &mut Writer<'_>) {
        self.0.event_avps().put(w);
    }
}

/// The field that a notice tells of, where it tells of one.
#[derive(Clone, Copy)]
pub(crate) struct Told<'a>(pub(crate) Notice<'a>);

impl Section for Told<'_> {
    ghost bytes = { λ s. field_avp s.0.event s.0.value.now };

    ghost most = { 60 };

    fn size(&self) -> usize {
        self.0.told_avp().size()
    }

    fn put(&self, w: &mut Writer<'_>) {
        self.0.told_avp().put(w);
    }
}

/// The Destination-Host and the Destination-Realm of an application function.
#[derive(Clone, Copy)]
pub(crate) struct Peer<'n, 'p>(pub(crate) Recipient<'n, 'p>);

impl Section for Peer<'_, '_> {
    ghost bytes = { λ s. peer_avps s.0.peer.host.now s.0.peer.realm.now };

    ghost most = { 144 };

    fn size(&self) -> usize {
        self.0.peer_avps().size()
    }

    fn put(&self, w: &mut Writer<'_>) {
        self.0.peer_avps().put(w);
    }
}
