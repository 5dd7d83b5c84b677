//! What an answer says.
ghost use Rattle.std.specs.Prelude.{◌≡◌, ◌≤◌, length};
ghost use Rattle.message.specs.Limits.{buffer_least};
ghost use Rattle.answer.specs.Answers.{answer_body, answer_bytes};
ghost use Rattle.answer.specs.Contents.{said_by};

use crate::failed::Failed;
use crate::fields::Shown;
use crate::front::{ResultAvp, SessionId};
use crate::source::FieldSource;
use diameter::header::Header;
use message::Origin;
use message::section::Section;
use message::sender::{ApplicationId, Sender};
use refusal::ResultCode;

/// What an answer says, with the header of the request that it answers.
#[derive_where(Clone, Copy)]
pub(crate) struct Content<'m, 'o, 's, S> {
    pub(crate) request: Header,
    pub(crate) session: SessionId<'m>,
    pub(crate) code: ResultCode,
    pub(crate) origin: Origin<'o>,
    pub(crate) shown: Shown<'s, S>,
    pub(crate) failed: Failed<'m>,
}

/// The sections that every answer begins with.
pub(crate) type Front<'m, 'o> = (SessionId<'m>, (ApplicationId, (ResultAvp, Sender<'o>)));

/// The sections of an answer.
pub(crate) type Body<'m, 'o, 's, S> = (Front<'m, 'o>, (Shown<'s, S>, Failed<'m>));

impl<'m, 'o, 's, S: FieldSource> Content<'m, 'o, 's, S> {
    pub(crate) fn body(self) -> Body<'m, 'o, 's, S>
        ensures { ⟦<Body<'m, 'o, 's, S> as Section>⟧.bytes result ≡ answer_body (said_by S.value self.entry) }
    {
        let sender = Sender(self.origin);
        let front = (
            self.session,
            (ApplicationId, (ResultAvp(self.code), sender)),
        );
        (front, (self.shown, self.failed))
    }

    /// How long the answer is.
    pub(crate) fn size(self) -> usize
        ensures is { result ≡ length (answer_bytes (said_by S.value self.entry)) }
        ensures within { result ≤ buffer_least }
    {
        Header::SIZE + self.body().size()
    }
}
