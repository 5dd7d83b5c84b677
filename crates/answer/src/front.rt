//! The sections that every answer begins with.
ghost use Rattle.std.specs.Prelude.{◌≡◌, ◌+◌};
ghost use Rattle.message.specs.Limits.{session_limit};
ghost use Rattle.answer.specs.Answers.{is_protocol_error, answer_flags, session_avp, result_avp};

use dictionary::known::Known;
use message::section::{Avp, KnownAvp, Octets, Section};
use refusal::ResultCode;
use writer::avp::AvpHead;
use writer::writer::Writer;

/// The vendor 3GPP.
const THREE_GPP: u32 = 10415;

const VENDOR_ID: AvpHead = AvpHead {
    code: 266,
    flags: 0x40,
    vendor: 0,
};

const RESULT_CODE: AvpHead = AvpHead {
    code: 268,
    flags: 0x40,
    vendor: 0,
};

const EXPERIMENTAL_RESULT: AvpHead = AvpHead {
    code: 297,
    flags: 0x40,
    vendor: 0,
};

const EXPERIMENTAL_RESULT_CODE: AvpHead = AvpHead {
    code: 298,
    flags: 0x40,
    vendor: 0,
};

/// Whether the header of the answer is marked as an error of the protocol.
fn is_protocol_error(code: ResultCode) -> bool
    ensures { result ≡ is_protocol_error code }
{
    matches!(code, ResultCode::Base(3001 | 3007))
}

/// The flags of the answer to a request with these flags.
pub(crate) fn answer_flags(flags: u8, code: ResultCode) -> u8
    ensures { result ≡ answer_flags flags code }
{
    if is_protocol_error(code) {
        (flags & 0x40) + 0x20
    } else {
        flags & 0x40
    }
}

/// The Session-Id of the request, none where it is empty.
#[derive(Clone, Copy)]
pub(crate) struct SessionId<'m>(pub(crate) Octets<'m>);

impl<'m> SessionId<'m> {
    fn avp(self) -> Option<KnownAvp<'m>>
        ensures { ⟦<Option<KnownAvp<'m>> as Section>⟧.bytes result ≡ session_avp self.entry.0.octets.now }
    {
        if self.0.is_empty() {
            return None;
        }
        Some(Avp {
            kind: Known::SessionId,
            data: self.0,
        })
    }
}

impl Section for SessionId<'_> {
    ghost bytes = { λ s. session_avp s.0.octets.now };

    ghost most = { 8 + session_limit };

    fn size(&self) -> usize {
        self.avp().size()
    }

    fn put(&self, w: &mut Writer<'_>) {
        self.avp().put(w);
    }
}

/// The result: a Result-Code, or an Experimental-Result of 3GPP.
#[derive(Clone, Copy)]
pub(crate) struct ResultAvp(pub(crate) ResultCode);

/// A Result-Code.
fn base(code: u32) -> Avp<AvpHead, u32>
    ensures { ⟦<Avp<AvpHead, u32> as Section>⟧.bytes result ≡ result_avp (ResultCode.Base code) }
{
    Avp {
        kind: RESULT_CODE,
        data: code,
    }
}

type ExperimentalResult = Avp<AvpHead, (Avp<AvpHead, u32>, Avp<AvpHead, u32>)>;

/// An Experimental-Result of 3GPP.
fn experimental(code: u32) -> ExperimentalResult
    ensures { ⟦<ExperimentalResult as Section>⟧.bytes result ≡ result_avp (ResultCode.Experimental code) }
{
    let vendor = Avp {
        kind: VENDOR_ID,
        data: THREE_GPP,
    };
    let number = Avp {
        kind: EXPERIMENTAL_RESULT_CODE,
        data: code,
    };
    Avp {
        kind: EXPERIMENTAL_RESULT,
        data: (vendor, number),
    }
}

// A section around the two forms: they are at most 32 bytes, and of two types.
impl Section for ResultAvp {
    ghost bytes = { λ r. result_avp r.0 };

    ghost most = { 32 };

    fn size(&self) -> usize {
        match self.0 {
            ResultCode::Base(code) => base(code).size(),
            ResultCode::Experimental(code) => experimental(code).size(),
        }
    }

    fn put(&self, w: &mut Writer<'_>) {
        match self.0 {
            ResultCode::Base(code) => base(code).put(w),
            ResultCode::Experimental(code) => experimental(code).put(w),
        }
    }
}
