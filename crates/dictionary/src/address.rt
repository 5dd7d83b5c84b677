//! The address of a line.
ghost use Rattle.std.specs.Prelude.{◌≡◌};
ghost use Rattle.dictionary.specs.Addresses.{address_in, address_found};

use crate::known::Known;
use diameter::search::only_such;

/// An address that borrows the bytes of a message: an IP address of four bytes, and the realm that it is unique in.
#[derive(Clone, Copy)]
pub struct AddressView<'a> {
    pub ip: &'a [u8],
    pub realm: &'a [u8],
}

/// The address in the data of a Globally-Unique-Address, where they are right.
pub fn read_address<'a>(payload: &'a [u8]) -> Option<AddressView<'a>>
    ensures { address_found result ≡ address_in payload.now }
{
    let ip = only_such(&Known::FramedIpAddress, payload)?;
    let realm = only_such(&Known::AddressRealm, payload)?;
    let is_right = matches!((ip.payload.len(), realm.payload.len()), (4, 1..=32));
    is_right.then_some(AddressView {
        ip: ip.payload,
        realm: realm.payload,
    })
}
