//! The AVPs of a request, found by their names.
ghost use Rattle.std.specs.Prelude.{◌≡◌};
ghost use Rattle.diameter.specs.Headers.{body};
ghost use Rattle.diameter.specs.Lists.{avps, first_such};
ghost use Rattle.diameter.specs.Views.{found};
ghost use Rattle.request.specs.Faults.{is, there, first};
ghost use Rattle.request.specs.Readings.{payload_at};

use diameter::avp::AvpView;
use diameter::avps::Avps;
use diameter::header::body_of;
use diameter::search::first_such;
use dictionary::known::Known;

/// The bytes of a request's AVPs.
#[derive(Clone, Copy)]
pub(crate) struct Body<'a> {
    pub(crate) bytes: &'a [u8],
}

impl<'a> Body<'a> {
    /// The body of a message.
    pub(crate) fn of(message: &'a [u8]) -> Body<'a>
        ensures { result.bytes.now ≡ body message.now }
    {
        Body {
            bytes: body_of(message),
        }
    }

    /// Its AVPs, in order.
    pub(crate) fn avps(self) -> Avps<'a>
        ensures { result.rest.now ≡ self.entry.bytes.now }
    {
        Avps::new(self.bytes)
    }

    /// The first AVP.
    pub(crate) fn first(self) -> Option<AvpView<'a>>
        ensures { found result ≡ first (avps self.entry.bytes.now) }
    {
        self.avps().next()
    }

    /// The first AVP of this name.
    pub(crate) fn find(self, known: Known) -> Option<AvpView<'a>>
        ensures { found result ≡ first_such (is known) (avps self.entry.bytes.now) }
    {
        first_such(&known.name(), self.bytes)
    }

    /// Whether there is an AVP of this name.
    pub(crate) fn has(self, known: Known) -> bool
        ensures { result ≡ there known (avps self.entry.bytes.now) }
    {
        self.find(known).is_some()
    }

    /// The data of the first AVP of this name, or none.
    pub(crate) fn payload(self, known: Known) -> &'a [u8]
        ensures { result.now ≡ payload_at known (avps self.entry.bytes.now) }
    {
        self.find(known).map_or(&[], |avp| avp.payload)
    }
}
