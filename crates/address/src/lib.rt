//! The address of a line, kept in place.
#![tactic(auto)]

ghost use Rattle.std.specs.Prelude.{◌≡◌, ◌≤◌, true, ◌&&◌, length, take};
ghost use Rattle.dictionary.specs.Addresses.{sized, address_of};
ghost use Rattle.std.specs.Str.{bytes_eq};
ghost use Rattle.dictionary.specs.Addresses.{Address as Meant};
ghost use Rattle.address.specs.Kept.{kept, same, spelling};

use dictionary::address::AddressView;
use text::text::Text;

/// Four bytes of an IP address, and the realm that it is unique in.
#[derive(Clone, Copy, PartialEq, Eq)]
pub struct Address {
    ip: [u8; 4],
    realm: Text<32>,
}

impl Address {
    /// The address of these bytes. Of a realm that is too long the first 32 bytes are kept.
    pub fn new(ip: [u8; 4], realm: &[u8]) -> Address
        ensures ip { (kept result).ip ≡ ip }
        ensures realm { (kept result).realm ≡ take 32 realm.now }
    {
        Address {
            ip,
            realm: Text::new(realm),
        }
    }

    pub fn view(&self) -> AddressView<'_>
        ensures is { address_of result ≡ kept self.now }
        ensures ip { length result.ip.now ≤ 4 }
        ensures realm { length result.realm.now ≤ 32 }
    {
        AddressView {
            ip: &self.ip,
            realm: self.realm.octets(),
        }
    }
}

/// The address that a request names. What is no address becomes some address.
impl From<AddressView<'_>> for Address {
    ghost from_gives = { λ view r. (sized 4 4 view.ip.now && sized 1 32 view.realm.now) ≡ true → kept r ≡ address_of view };

    fn from(view: AddressView<'_>) -> Address {
        let ip = view.ip.try_into().unwrap_or([0; 4]);
        Address::new(ip, view.realm)
    }
}

/// Two addresses are equal when both their parts are.
pub fn equality_is_sameness()
    ensures { (a b : Address) → ⟦<Address as PartialEq>⟧.eq a b ≡ same (kept a) (kept b) }
{}

/// Two addresses have the same key exactly when they are the same.
#[tactic(auto, using(crate::proofs::Spelt::spelt))]
pub fn spelling_tells_apart()
    ensures { (p q : Meant) → bytes_eq (spelling p) (spelling q) ≡ same p q }
{}
