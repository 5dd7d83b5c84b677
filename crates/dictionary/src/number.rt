//! The numbers that AVPs of four bytes carry, and what they stand for.
ghost use Rattle.std.specs.Prelude.{◌≡◌, cond, Some, None, nat_le};
ghost use Rattle.dictionary.specs.Numbers.{word, field_of, event_of, time_of};

/// A time in seconds since 1900.
pub type Time = u32;

/// The number in data of four bytes, 0 in data of another length.
pub fn word(payload: &[u8]) -> u32
    ensures { result ≡ word payload.now }
{
    <[u8; 4]>::try_from(payload).map_or(0, u32::from_be_bytes)
}

/// The number in a byte, where it is at most `most`.
fn at_most(number: u32, most: u8) -> Option<u8>
    ensures { result ≡ cond (nat_le number most) (Some number) None }
{
    u8::try_from(number).ok().filter(|byte| *byte <= most)
}

/// The field that a Requested-Information asks for.
// Plain numbers here and below, not `Field` and an enum of events: a set takes its members by number.
pub fn requested_field(number: u32) -> Option<u8>
    ensures { result ≡ field_of number }
{
    at_most(number, 9)
}

/// The event that an Event-Type names.
pub fn named_event(number: u32) -> Option<u8>
    ensures { result ≡ event_of number }
{
    at_most(number, 10)
}

/// The time that an Expiry-Time names.
pub fn named_time(number: u32) -> Time
    ensures { result ≡ time_of number }
{
    number
}
