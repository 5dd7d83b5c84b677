//! Sections of a message: runs of bytes, each of which knows its length before it is written.
ghost use Rattle.std.specs.Prelude.{◌≡◌, ℕ, ◌+◌, ◌≤◌, List, [], ◌++◌, length, take, drop, Some, None, ◌==◌};
ghost use Rattle.writer.specs.Bytes.{bytes32};
ghost use Rattle.writer.specs.Avps.{avp};
ghost use Rattle.writer.specs.Headers.{header_bytes};
ghost use Rattle.writer.specs.Stores.{Appends, room};
ghost use Rattle.message.specs.Limits.{session_limit, buffer_least};

use crate::kind::AvpKind;
use diameter::header::Header;
use dictionary::known::Known;
use writer::avp::{avp_size, padding};
use writer::writer::Writer;

/// A run of bytes of a message.
pub trait Section {
    /// The bytes, and how many they are at most.
    ghost bytes: { Self → List ℕ };

    ghost most: { ℕ };

    /// How many they are.
    // The bound is asked at each call: of a pair's sum no type says it.
    fn size(&self) -> usize
        requires { most ≤ buffer_least }
        ensures is { result ≡ length (bytes self.now) }
        ensures within { result ≤ most };

    /// Writes them.
    fn put(&self, w: &mut Writer<'_>)
        requires { (most ≤ buffer_least) × (room (length (bytes self.now)) w.old) }
        ensures { Appends w.old (bytes self.now) w.new };
}

/// Two sections, one after the other.
impl<A: Section, B: Section> Section for (A, B) {
    ghost bytes = { λ s. A.bytes s.0 ++ B.bytes s.1 };

    ghost most = { A.most + B.most };

    fn size(&self) -> usize {
        self.0.size() + self.1.size()
    }

    #[inline(always)]
    fn put(&self, w: &mut Writer<'_>) {
        self.0.put(w);
        self.1.put(w);
    }
}

/// A section, or nothing.
impl<S: Section> Section for Option<S> {
    ghost bytes = { λ o. elim o [ Some s ↦ S.bytes s | None ↦ [] ] };

    ghost most = { S.most };

    fn size(&self) -> usize {
        match self {
            Some(section) => section.size(),
            None => 0,
        }
    }

    fn put(&self, w: &mut Writer<'_>) {
        if let Some(section) = self {
            section.put(w);
        }
    }
}

/// A number, in four bytes.
impl Section for u32 {
    ghost bytes = { bytes32 };

    ghost most = { 4 };

    fn size(&self) -> usize {
        4
    }

    fn put(&self, w: &mut Writer<'_>) {
        w.u32(*self);
    }
}

/// Bytes of ours, at most as many as a Session-Id may have.
#[derive(Clone, Copy)]
pub struct Octets<'a> {
    octets: &'a [u8],
    ghost fits: { length octets.now ≤ session_limit },
}

impl<'a> Octets<'a> {
    pub fn new(octets: &'a [u8]) -> Octets<'a>
        requires { length octets.now ≤ session_limit }
        ensures { result.octets.now ≡ octets.now }
    {
        Octets { octets }
    }

    /// Whether there are none.
    pub fn is_empty(self) -> bool
        ensures { result ≡ (length self.entry.octets.now == 0) }
    {
        self.octets.is_empty()
    }
}

impl Section for Octets<'_> {
    ghost bytes = { λ s. s.octets.now };

    ghost most = { session_limit };

    fn size(&self) -> usize {
        self.octets.len()
    }

    fn put(&self, w: &mut Writer<'_>) {
        w.bytes(self.octets);
    }
}

/// An AVP of a kind, with its data.
#[derive(Clone, Copy)]
pub struct Avp<K, D> {
    pub kind: K,
    pub data: D,
}

impl<'a, K> Avp<K, Octets<'a>> {
    /// An AVP of a kind around these bytes.
    pub fn of(kind: K, octets: &'a [u8]) -> Self
        requires { length octets.now ≤ session_limit }
        ensures kind { result.kind ≡ kind }
        ensures octets { result.data.octets.now ≡ octets.now }
    {
        Avp {
            kind,
            data: Octets::new(octets),
        }
    }
}

impl<K: AvpKind, D: Section> Section for Avp<K, D> {
    ghost bytes = { λ a. avp (K.head a.kind).code (K.head a.kind).flags (K.head a.kind).vendor (D.bytes a.data) };

    ghost most = { 15 + D.most };

    fn size(&self) -> usize {
        avp_size(self.kind.head().flags, self.data.size())
    }

    #[inline(always)]
    fn put(&self, w: &mut Writer<'_>) {
        let size = self.data.size();
        w.avp_header(self.kind.head(), size);
        self.data.put(w);
        w.zeros(padding(size));
    }
}

/// An AVP of the dictionary with bytes of ours.
pub type KnownAvp<'a> = Avp<Known, Octets<'a>>;

/// Writes a message to the front of the buffer, and says how long it is.
pub fn write_message<S: Section>(out: &mut [u8], header: Header, body: &S) -> usize
    requires { (S.most ≤ buffer_least) × (20 + length (S.bytes body.now) ≤ length out.old) }
    ensures bytes { take result out.new ≡ header_bytes header ++ S.bytes body.now }
    ensures rest { drop result out.new ≡ drop result out.old }
    ensures size { result ≡ 20 + length (S.bytes body.now) }
{
    let mut w = Writer::new(out);
    w.message_header(header);
    body.put(&mut w);
    w.end()
}
