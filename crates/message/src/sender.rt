//! The AVPs that every message carries: the application, and who sends it.
ghost use Rattle.std.specs.Prelude.{◌≡◌};
ghost use Rattle.message.specs.Messages.{application_avp, sender_avps};

use crate::origin::Origin;
use crate::section::{Avp, KnownAvp, Octets, Section};
use dictionary::known::Known;
use writer::writer::Writer;

/// The Vendor-Specific-Application-Id of e2: vendor 13019, application 16777231.
const APPLICATION_ID: [u8; 32] =
    *b"\x00\x00\x01\x04\x40\x00\x00\x20\x00\x00\x01\x0A\x40\x00\x00\x0C\x00\x00\x32\xDB\x00\x00\x01\x02\x40\x00\x00\x0C\x01\x00\x00\x0F";

/// The Auth-Session-State of one who keeps no state.
const NO_STATE: u32 = 1;

/// The application: the same 32 bytes in every message.
#[derive(Clone, Copy)]
pub struct ApplicationId;

impl Section for ApplicationId {
    ghost bytes = { λ _. application_avp };

    ghost most = { 32 };

    fn size(&self) -> usize {
        APPLICATION_ID.len()
    }

    fn put(&self, w: &mut Writer<'_>) {
        w.bytes(&APPLICATION_ID);
    }
}

/// The Auth-Session-State, which says that no state is kept, and our Origin-Host and Origin-Realm.
#[derive(Clone, Copy)]
pub struct Sender<'a>(pub Origin<'a>);

/// An Auth-Session-State, an Origin-Host and an Origin-Realm.
type SenderAvps<'a> = (Avp<Known, u32>, (KnownAvp<'a>, KnownAvp<'a>));

impl<'a> Sender<'a> {
    fn avps(self) -> SenderAvps<'a>
        ensures { ⟦<SenderAvps<'a> as Section>⟧.bytes result ≡ sender_avps self.entry.0.host.now self.entry.0.realm.now }
    {
        let state = Avp {
            kind: Known::AuthSessionState,
            data: NO_STATE,
        };
        let host = Avp::of(Known::OriginHost, self.0.host());
        let realm = Avp::of(Known::OriginRealm, self.0.realm());
        (state, (host, realm))
    }
}

// A section around the three: they are at most 156 bytes, where their types alone say more.
impl Section for Sender<'_> {
    ghost bytes = { λ s. sender_avps s.0.host.now s.0.realm.now };

    ghost most = { 156 };

    fn size(&self) -> usize {
        self.avps().size()
    }

    #[inline(always)]
    fn put(&self, w: &mut Writer<'_>) {
        self.avps().put(w);
    }
}
