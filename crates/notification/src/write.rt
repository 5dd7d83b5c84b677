//! A whole notification.
ghost use Rattle.std.specs.Prelude.{◌≡◌, ◌≤◌, length, take, drop};
ghost use Rattle.message.specs.Limits.{buffer_least};
ghost use Rattle.notification.specs.Notifications.{notification_bytes};
ghost use Rattle.notification.specs.Notices.{notification_of};

use crate::notice::{Notice, Recipient};
use crate::part::{Event, Peer, SessionText, Told};
use diameter::header::Header;
use dictionary::known::Known;
use message::Origin;
use message::section::{Avp, Section, write_message};
use message::sender::{ApplicationId, Sender};

/// The command of a Push-Notification-Request.
const COMMAND: u32 = 309;

/// The application of e2.
const APPLICATION: u32 = 16777231;

/// The header of a Push-Notification-Request of this size, with the serial in both identifiers.
fn notification_header(size: usize, serial: u32) -> Header
    requires { size ≤ buffer_least }
    ensures { result ≡ record { version = 1; length = size; flags = 0xC0; command = 309; application = 16777231; hop_by_hop = serial; end_to_end = serial } }
{
    Header {
        version: 1,
        length: size as u32,
        flags: 0xC0,
        command: COMMAND,
        application: APPLICATION,
        hop_by_hop: serial,
        end_to_end: serial,
    }
}

/// Writes the notification to the front of the buffer, and says how long it is.
pub fn write_notification(
    out: &mut [u8],
    origin: Origin<'_>,
    to: Recipient<'_, '_>,
    notice: Notice<'_>,
    serial: u32,
) -> usize
    requires { buffer_least ≤ length out.old }
    ensures bytes { take result out.new ≡ notification_bytes (notification_of origin.entry to.entry notice.entry serial) }
    ensures rest { drop result out.new ≡ drop result out.old }
    ensures size { result ≡ length (notification_bytes (notification_of origin.entry to.entry notice.entry serial)) }
    ensures within { result ≤ buffer_least }
{
    let session = Avp {
        kind: Known::SessionId,
        data: SessionText {
            origin,
            number: to.number,
            serial,
        },
    };
    let news = (Event(notice), (to.name_avp(), Told(notice)));
    let peers = (Sender(origin), (Peer(to), news));
    let body = (session, (ApplicationId, peers));
    let header = notification_header(Header::SIZE + body.size(), serial);
    write_message(out, header, &body)
}
