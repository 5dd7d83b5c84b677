//! What can be wrong with an AVP of a request.
ghost use Rattle.std.specs.Prelude.{◌≡◌, not, ◌&&◌};
ghost use Rattle.diameter.specs.Views.{avp_of, found};
ghost use Rattle.dictionary.specs.Names.{repeats};
ghost use Rattle.dictionary.specs.Forms.{fits};
ghost use Rattle.request.specs.Faults.{unsupported_by, stranger_by};

use diameter::avp::AvpView;
use diameter::avps::Avps;
use diameter::search::AvpTest;
use dictionary::known::Known;
use dictionary::number::Time;

/// Whether an AVP has to be understood and is unknown, where `known` is the known AVP of its name, if there is one.
fn is_unsupported(avp: AvpView<'_>, known: Option<Known>) -> bool
    ensures { result ≡ unsupported_by known (avp_of avp.entry) }
{
    avp.is_mandatory() && known.is_none()
}

/// The AVP itself, or the first directly in it where it is an address, that has to be understood and is unknown; `known` is the
/// known AVP of its own name, if there is one.
pub(crate) fn stranger_in<'a>(avp: AvpView<'a>, known: Option<Known>) -> Option<AvpView<'a>>
    ensures { found result ≡ stranger_by known (avp_of avp.entry) }
{
    if is_unsupported(avp, known) {
        Some(avp)
    } else if Known::GloballyUniqueAddress.passes(avp) {
        Avps::new(avp.payload).find(|part| is_unsupported(*part, Known::named(part.name())))
    } else {
        None
    }
}

/// Whether a known AVP may not stand here, where `stood` tells whether it stood before.
pub(crate) fn is_repeat(known: Known, stood: bool) -> bool
    ensures { result ≡ (not (repeats known) && stood) }
{
    !known.repeats() && stood
}

/// Whether the data of a known AVP are wrong; an end has to be later than `after`, where there is such a time.
pub(crate) fn is_misfit(avp: AvpView<'_>, known: Known, after: Option<Time>) -> bool
    ensures { result ≡ not (fits after known avp.entry.payload.now) }
{
    !known.fits(avp.payload, after)
}
