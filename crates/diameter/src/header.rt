//! The header of a message.
ghost use Rattle.std.specs.Prelude.{◌≡◌, ◌<◌, ◌≤◌, length, MatchOption};
ghost use Rattle.diameter.specs.Bytes.{flagged};
ghost use Rattle.diameter.specs.Headers.{body, header_of};

use crate::bytes::{u24_at, u32_at};

/// What the header of a message says.
#[derive(Clone, Copy)]
pub struct Header {
    pub version: u8,
    /// Of the whole message, header included.
    pub length: u32,
    pub flags: u8,
    pub command: u32,
    pub application: u32,
    pub hop_by_hop: u32,
    pub end_to_end: u32,
}

impl Header {
    /// How many bytes a header has.
    pub const SIZE: usize = 20;

    /// The flag that tells a request from an answer.
    pub const REQUEST: u8 = 0x80;

    /// Whether the message is a request.
    pub fn is_request(self) -> bool
        ensures { result ≡ flagged 0x80 self.flags }
    {
        self.flags & Self::REQUEST != 0
    }
}

/// The header of a message and the bytes of its AVPs, or none below 20 bytes.
pub fn split_header(message: &[u8]) -> Option<(Header, &[u8])>
    ensures { MatchOption result (length message.now < 20) (λ p. (20 ≤ length message.now) × (p.0 ≡ header_of message.now) × (p.1.now ≡ body message.now)) }
{
    let avps = message.get(Header::SIZE..)?;
    let header = Header {
        version: message[0],
        length: u24_at(message, 1),
        flags: message[4],
        command: u24_at(message, 5),
        application: u32_at(message, 8),
        hop_by_hop: u32_at(message, 12),
        end_to_end: u32_at(message, 16),
    };
    Some((header, avps))
}

/// The bytes of a message's AVPs: those after the header, none where there are no more.
pub fn body_of(message: &[u8]) -> &[u8]
    ensures { result.now ≡ body message.now }
{
    message.get(Header::SIZE..).unwrap_or(&[])
}
