//! Searches over the AVPs of a sequence: the first AVP that passes a test, and how many do.
ghost use Rattle.std.specs.Prelude.{◌≡◌, Bool};
ghost use Rattle.diameter.specs.Lists.{Avp, avps, first_such, count_such, only_such, named};
ghost use Rattle.diameter.specs.Views.{avp_of, found};

use crate::avp::{AvpName, AvpView};
use crate::avps::Avps;

/// A test of one AVP.
// Not a closure: that would have to be required callable, and its meaning be a premise of each promise below. A test says both itself.
pub trait AvpTest {
    ghost holds: { Self → Avp → Bool };

    fn passes(&self, avp: AvpView<'_>) -> bool
        ensures { result ≡ holds self.now (avp_of avp.entry) };
}

/// The first AVP that passes.
pub fn first_such<'a, P: AvpTest>(test: &P, bytes: &'a [u8]) -> Option<AvpView<'a>>
    ensures { found result ≡ first_such (P.holds test.now) (avps bytes.now) }
{
    Avps::new(bytes).find(|avp| test.passes(*avp))
}

/// How many AVPs pass.
pub fn count_such<P: AvpTest>(test: &P, bytes: &[u8]) -> usize
    ensures { result ≡ count_such (P.holds test.now) (avps bytes.now) }
{
    Avps::new(bytes).filter(|avp| test.passes(*avp)).count()
}

/// The AVP that passes, where it is the only one.
pub fn only_such<'a, P: AvpTest>(test: &P, bytes: &'a [u8]) -> Option<AvpView<'a>>
    ensures { found result ≡ only_such (P.holds test.now) (avps bytes.now) }
{
    if count_such(test, bytes) == 1 {
        first_such(test, bytes)
    } else {
        None
    }
}

/// As a test of AVPs a name passes those that it names.
impl AvpTest for AvpName {
    ghost holds = { λ n. named n.code n.vendor };

    fn passes(&self, avp: AvpView<'_>) -> bool {
        avp.name() == *self
    }
}
