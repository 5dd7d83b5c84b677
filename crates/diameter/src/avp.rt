//! The AVP at the front of a sequence, as a view of its bytes.
ghost use Rattle.std.specs.Prelude.{◌≡◌, ◌<◌, true, false, MatchOption};
ghost use Rattle.diameter.specs.Bytes.{flagged};
ghost use Rattle.diameter.specs.Avps.{stands, group};
ghost use Rattle.diameter.specs.Spans.{Reads};
ghost use Rattle.diameter.specs.Views.{Splits};

use crate::bytes::{u24_at, u32_at};

/// The name of an AVP.
#[derive(Clone, Copy, PartialEq, Eq, Debug)]
pub struct AvpName {
    pub code: u32,
    /// 0 where the header names none.
    pub vendor: u32,
}

/// An AVP of a message, which borrows its bytes.
#[derive(Clone, Copy)]
pub struct AvpView<'a> {
    pub code: u32,
    /// 0 where the header names none.
    // Not an `Option`: an AVP that names vendor 0 has the same name as one that names none.
    pub vendor: u32,
    pub flags: u8,
    /// The AVP's data.
    pub payload: &'a [u8],
    /// The whole AVP, from its header to its padding.
    pub octets: &'a [u8],
}

impl AvpView<'_> {
    /// The flag of an AVP whose header names a vendor.
    pub const VENDOR: u8 = 0x80;

    /// The flag of an AVP that the receiver has to understand.
    pub const MANDATORY: u8 = 0x40;

    /// Whether the receiver has to understand the AVP.
    pub fn is_mandatory(self) -> bool
        ensures { result ≡ flagged 0x40 self.entry.flags }
    {
        self.flags & Self::MANDATORY != 0
    }

    pub fn name(self) -> AvpName
        ensures { result ≡ record { code = self.entry.code; vendor = self.entry.vendor } }
    {
        AvpName {
            code: self.code,
            vendor: self.vendor,
        }
    }
}

/// What the header of an AVP says: its data are the bytes from `start` to `end`, and its padding ends at `next`.
#[derive(Clone, Copy)]
struct Span {
    code: u32,
    vendor: u32,
    flags: u8,
    start: usize,
    end: usize,
    next: usize,
}

/// Reads the header of the AVP at the front.
fn read_span(bytes: &[u8]) -> Option<Span>
    ensures { MatchOption result (stands bytes.now ≡ false) (λ s. Reads s bytes.now) }
{
    if bytes.len() < 8 {
        return None;
    }
    let flags = bytes[4];
    let has_vendor = flags & AvpView::VENDOR != 0;
    let end = u24_at(bytes, 5) as usize;
    let start = if has_vendor { 12 } else { 8 };
    let next = end.next_multiple_of(4);
    if end < start || bytes.len() < next {
        return None;
    }
    let vendor = if has_vendor { u32_at(bytes, 8) } else { 0 };
    Some(Span {
        code: u32_at(bytes, 0),
        vendor,
        flags,
        start,
        end,
        next,
    })
}

/// The AVP at the front and the bytes after it, or none where no AVP stands there.
pub fn split_avp<'a>(bytes: &'a [u8]) -> Option<(AvpView<'a>, &'a [u8])>
    ensures { MatchOption result (stands bytes.now ≡ false) (λ p. Splits p.0 p.1.now bytes.now) }
{
    let span = read_span(bytes)?;
    let (octets, rest) = bytes.split_at(span.next);
    Some((
        AvpView {
            code: span.code,
            vendor: span.vendor,
            flags: span.flags,
            payload: &bytes[span.start..span.end],
            octets,
        },
        rest,
    ))
}

/// Whether the AVP of this name is a group: its data are AVPs in turn.
pub fn is_group(name: AvpName) -> bool
    ensures { result ≡ group name.code name.vendor }
{
    matches!(
        (name.vendor, name.code),
        (0, 260 | 279 | 284 | 297) | (13019, 300 | 303 | 304 | 306 | 350 | 357 | 358)
    )
}
