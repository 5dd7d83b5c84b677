//! The Failed-AVP of an answer.
ghost use Rattle.std.specs.Prelude.{◌≡◌, ◌+◌, ◌≤◌, length};
ghost use Rattle.dictionary.specs.Names.{shortest};
ghost use Rattle.diameter.specs.Views.{avp_of};
ghost use Rattle.request.specs.Askings.{fault_of, copied, lacks};
ghost use Rattle.writer.specs.Bytes.{zeros};
ghost use Rattle.answer.specs.Limits.{copy_limit};
ghost use Rattle.answer.specs.Faults.{kept, copy, failed_avp};
ghost use Rattle.answer.specs.Copies.{FitsTell};

use diameter::avp::AvpView;
use dictionary::known::Known;
use message::section::{Avp, Section};
use request::asking::FaultyAvp;
use writer::avp::{AvpHead, head_size, padding};
use writer::writer::Writer;

const FAILED_AVP: AvpHead = AvpHead {
    code: 279,
    flags: 0x40,
    vendor: 0,
};

/// A copy of an AVP: its header and data as they are, its padding zeros.
#[derive(Clone, Copy)]
struct Copied<'m> {
    avp: AvpView<'m>,
    ghost there: { kept (avp_of avp) ≤ length avp.octets.now },
    ghost short: { length avp.octets.now ≤ copy_limit },
}

impl Copied<'_> {
    /// How many bytes are copied: the header and the data.
    fn kept(self) -> usize
        ensures { result ≡ kept (avp_of self.entry.avp) }
    {
        head_size(self.avp.flags) + self.avp.payload.len()
    }
}

impl Section for Copied<'_> {
    ghost bytes = { λ c. copy (avp_of c.avp) };

    ghost most = { copy_limit };

    fn size(&self) -> usize {
        let kept = self.kept();
        kept + padding(kept)
    }

    fn put(&self, w: &mut Writer<'_>) {
        let kept = self.kept();
        w.bytes(&self.avp.octets[0..kept]);
        w.zeros(padding(kept));
    }
}

/// Zeros, as many as an AVP of the dictionary has to have at least.
#[derive(Clone, Copy)]
struct Blank(Known);

impl Section for Blank {
    ghost bytes = { λ b. zeros (shortest b.0) };

    ghost most = { 4 };

    fn size(&self) -> usize {
        self.0.shortest()
    }

    fn put(&self, w: &mut Writer<'_>) {
        w.zeros(self.0.shortest());
    }
}

/// The AVP that a request is refused for, where one is, in a Failed-AVP.
#[derive(Clone, Copy)]
pub(crate) struct Failed<'m> {
    faulty: Option<FaultyAvp<'m>>,
    ghost fits: { FitsTell (fault_of faulty) },
}

impl<'m> Failed<'m> {
    pub(crate) fn new(faulty: Option<FaultyAvp<'m>>) -> Failed<'m>
        requires { FitsTell (fault_of faulty) }
        ensures { fault_of result.faulty ≡ fault_of faulty.entry }
    {
        Failed { faulty }
    }
}

type CopiedAvp<'m> = Avp<AvpHead, Copied<'m>>;

fn copied_avp<'m>(avp: AvpView<'m>) -> CopiedAvp<'m>
    requires { (kept (avp_of avp) ≤ length avp.octets.now) × (length avp.octets.now ≤ copy_limit) }
    ensures { ⟦<CopiedAvp<'m> as Section>⟧.bytes result ≡ failed_avp (copied (avp_of avp.entry)) }
{
    Avp {
        kind: FAILED_AVP,
        data: Copied { avp },
    }
}

type MissingAvp = Avp<AvpHead, Avp<Known, Blank>>;

/// What stands for a missing AVP: its header, and zeros of the shortest length.
fn missing_avp(known: Known) -> MissingAvp
    ensures { ⟦<MissingAvp as Section>⟧.bytes result ≡ failed_avp (lacks known) }
{
    let blank = Avp {
        kind: known,
        data: Blank(known),
    };
    Avp {
        kind: FAILED_AVP,
        data: blank,
    }
}

impl Section for Failed<'_> {
    ghost bytes = { λ f. failed_avp (fault_of f.faulty) };

    ghost most = { 8 + copy_limit };

    fn size(&self) -> usize {
        match self.faulty {
            None => 0,
            Some(FaultyAvp::Present(avp)) => copied_avp(avp).size(),
            Some(FaultyAvp::Missing(known)) => missing_avp(known).size(),
        }
    }

    #[inline(always)]
    fn put(&self, w: &mut Writer<'_>) {
        match self.faulty {
            None => {}
            Some(FaultyAvp::Present(avp)) => copied_avp(avp).put(w),
            Some(FaultyAvp::Missing(known)) => missing_avp(known).put(w),
        }
    }
}
