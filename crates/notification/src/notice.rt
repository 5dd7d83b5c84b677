//! What is told, and to whom.
ghost use Rattle.std.specs.Prelude.{◌≡◌, ◌≤◌, length};
ghost use Rattle.message.specs.Limits.{name_limit, value_limit};
ghost use Rattle.notification.specs.Limits.{address_limit, place_limit};

use dictionary::address::AddressView;
use message::Origin;

/// An address whose parts are no longer than those of an address may be.
#[derive(Clone, Copy)]
pub(crate) struct Place<'a> {
    pub(crate) address: AddressView<'a>,
    ghost ip_fits: { length address.ip.now ≤ address_limit },
    ghost realm_fits: { length address.realm.now ≤ place_limit },
}

/// An event at an address, with the value that it is about.
// The event is a plain number: any may be told, and those past 8 tell of no field.
#[derive(Clone, Copy)]
pub struct Notice<'a> {
    pub(crate) event: u8,
    pub(crate) place: Place<'a>,
    pub(crate) value: &'a [u8],
    ghost value_fits: { length value.now ≤ value_limit },
}

impl<'a> Notice<'a> {
    pub fn new(event: u8, address: AddressView<'a>, value: &'a [u8]) -> Notice<'a>
        requires { (length address.ip.now ≤ address_limit) × ((length address.realm.now ≤ place_limit) × (length value.now ≤ value_limit)) }
        ensures event { result.event ≡ event }
        ensures address { result.place.address ≡ address.entry }
        ensures value { result.value.now ≡ value.now }
    {
        Notice {
            event,
            place: Place { address },
            value,
        }
    }
}

/// An application function: its number, its name, and the host and realm that it last gave.
#[derive(Clone, Copy)]
pub struct Recipient<'n, 'p> {
    pub(crate) number: u32,
    pub(crate) name: &'n [u8],
    pub(crate) peer: Origin<'p>,
    ghost name_fits: { length name.now ≤ name_limit },
}

impl<'n, 'p> Recipient<'n, 'p> {
    pub fn new(number: u32, name: &'n [u8], peer: Origin<'p>) -> Recipient<'n, 'p>
        requires { length name.now ≤ name_limit }
        ensures number { result.number ≡ number }
        ensures name { result.name.now ≡ name.now }
        ensures peer { result.peer ≡ peer.entry }
    {
        Recipient { number, name, peer }
    }
}
