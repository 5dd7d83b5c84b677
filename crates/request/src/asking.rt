//! What a request says, as values that borrow its bytes.
ghost use Rattle.std.specs.Prelude.{◌≡◌, None};

use diameter::avp::AvpView;
use dictionary::address::AddressView;
use dictionary::known::Known;
use dictionary::number::Time;
use fieldset::{EventSet, FieldSet};
use refusal::Refusal;

/// What is asked.
#[derive(Clone, Copy)]
pub enum Asked {
    /// The fields of a session: those in the set, or all where there is none.
    UserData { requested: Option<FieldSet> },
    /// To be told of the events in the set, until the end if there is one.
    Subscribe { events: EventSet, end: Option<Time> },
    /// Not to be told of the events in the set any more.
    Unsubscribe { events: EventSet },
}

/// Which session a request is about.
#[derive(Clone, Copy)]
pub enum Target<'a> {
    /// The one at this address.
    Address(AddressView<'a>),
    /// The one of this user.
    User(&'a [u8]),
}

/// A request that is right in itself.
#[derive(Clone, Copy)]
pub struct Request<'a> {
    pub asked: Asked,
    pub target: Target<'a>,
    /// The Origin-Host and the Origin-Realm of the application function.
    // Not one `message::Origin`: reading would rest on a crate about writing, for one pair that no function here takes.
    pub host: &'a [u8],
    pub realm: &'a [u8],
}

/// The AVP that a request is refused for.
#[derive(Clone, Copy)]
pub enum FaultyAvp<'a> {
    /// It stands in the request, as it should not.
    Present(AvpView<'a>),
    /// The request needs it and does not have it.
    Missing(Known),
}

/// Why a request is refused, and the AVP at fault, where one is; the answer carries it.
#[derive(Clone, Copy)]
pub struct Rejection<'a> {
    pub refusal: Refusal,
    pub faulty: Option<FaultyAvp<'a>>,
}

/// A request that is refused for no AVP of its own.
impl From<Refusal> for Rejection<'_> {
    ghost from_gives = { λ refusal r. (r.refusal ≡ refusal) × (r.faulty ≡ None) };

    fn from(refusal: Refusal) -> Self {
        Rejection {
            refusal,
            faulty: None,
        }
    }
}
