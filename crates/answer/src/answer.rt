//! An answer: its parts added, its length fixed, its bytes written.
ghost use Rattle.std.specs.Prelude.{◌≡◌, ◌≤◌, length, take, drop};
ghost use Rattle.request.specs.Askings.{fault_of};
ghost use Rattle.message.specs.Limits.{session_limit, buffer_least};
ghost use Rattle.answer.specs.Copies.{FitsTell};
ghost use Rattle.answer.specs.Answers.{bare, showing, telling, answer_flags, answer_bytes};
ghost use Rattle.answer.specs.Drafts.{answer_of, closed_of};

use crate::content::Content;
use crate::draft::{Closed, Draft};
use crate::failed::Failed;
use crate::fields::Shown;
use crate::front::{SessionId, answer_flags};
use crate::source::FieldSource;
use diameter::header::Header;
use fieldset::FieldSet;
use message::Origin;
use message::section::{Octets, write_message};
use refusal::ResultCode;
use request::asking::FaultyAvp;

impl<'m, 'o, 's, S: FieldSource> Draft<'m, 'o, 's, S> {
    /// The answer to the request with this header and this Session-Id, none where it is empty. It shows no field yet.
    pub fn new(
        header: Header,
        session: &'m [u8],
        code: ResultCode,
        origin: Origin<'o>,
        source: &'s S,
    ) -> Draft<'m, 'o, 's, S>
        requires { length session.now ≤ session_limit }
        ensures { answer_of S.value result ≡ bare header session.now code origin.entry.host.now origin.entry.realm.now (S.value source.now) }
    {
        let shown = Shown {
            source,
            set: FieldSet::empty(),
        };
        Draft {
            content: Content {
                request: header,
                session: SessionId(Octets::new(session)),
                code,
                origin,
                shown,
                failed: Failed::new(None),
            },
        }
    }

    /// Shows the fields of the set, with their values.
    pub fn show(self, fields: FieldSet) -> Draft<'m, 'o, 's, S>
        ensures { answer_of S.value result ≡ showing fields.bits (answer_of S.value self.entry) }
    {
        let Draft { content } = self;
        let shown = Shown {
            set: fields,
            ..content.shown
        };
        Draft {
            content: Content { shown, ..content },
        }
    }

    /// Tells which AVP of the request is at fault or missing.
    pub fn tell(self, told: Option<FaultyAvp<'m>>) -> Draft<'m, 'o, 's, S>
        requires { FitsTell (fault_of told) }
        ensures { answer_of S.value result ≡ telling (fault_of told.entry) (answer_of S.value self.entry) }
    {
        let Draft { content } = self;
        let failed = Failed::new(told);
        Draft {
            content: Content { failed, ..content },
        }
    }

    /// Ends adding: the length is known.
    pub fn close(self) -> Closed<'m, 'o, 's, S>
        ensures same { closed_of S.value result ≡ answer_of S.value self.entry }
        ensures size { result.size ≡ length (answer_bytes (closed_of S.value result)) }
    {
        let Draft { content } = self;
        Closed {
            content,
            size: content.size(),
        }
    }
}

/// The header of the answer to a request, where the answer has this size.
fn answer_header(request: Header, code: ResultCode, size: usize) -> Header
    requires { size ≤ buffer_least }
    ensures { result ≡ record request { length = size; flags = answer_flags request.flags code } }
{
    Header {
        length: size as u32,
        flags: answer_flags(request.flags, code),
        ..request
    }
}

impl<S: FieldSource> Closed<'_, '_, '_, S> {
    /// Writes the answer to the front of the buffer, and says how long it is.
    pub fn write(self, out: &mut [u8]) -> usize
        requires { buffer_least ≤ length out.old }
        ensures bytes { take result out.new ≡ answer_bytes (closed_of S.value self.entry) }
        ensures rest { drop result out.new ≡ drop result out.old }
        ensures size { result ≡ length (answer_bytes (closed_of S.value self.entry)) }
        ensures within { result ≤ buffer_least }
    {
        // The length is counted anew, since no invariant says that it is `size`.
        let Closed { content, size: _ } = self;
        let header = answer_header(content.request, content.code, content.size());
        write_message(out, header, &content.body())
    }
}
