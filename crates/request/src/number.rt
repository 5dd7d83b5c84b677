//! The sets of numbers that a request carries, one to an AVP.
ghost use Rattle.std.specs.Prelude.{◌≡◌, ℕ, Option};
ghost use Rattle.diameter.specs.Lists.{avps};
ghost use Rattle.diameter.specs.Views.{avp_of};
ghost use Rattle.request.specs.Readings.{adds, union, Computes};
ghost use Rattle.request.specs.Laws.{UnionOfAll};

use crate::body::Body;
use diameter::avp::AvpView;
use diameter::search::AvpTest;
use dictionary::known::Known;
use dictionary::number::word;
use fieldset::BitSet;

/// The set of what the number in this AVP stands for, where the AVP has this name.
fn member_of<const WIDTH: u32, F: Fn(u32) -> Option<u8>>(
    avp: AvpView<'_>,
    carrier: Known,
    meaning: &F,
) -> BitSet<WIDTH>
    requires { F.IsAlwaysCallable meaning.now }
    ensures { (m : ℕ → Option ℕ) → Computes (F.post meaning.now) m WIDTH → result.bits ≡ adds carrier m (avp_of avp.entry) }
{
    if !carrier.passes(avp) {
        return BitSet::empty();
    }
    // Not `and_then`: the borrow checker does not cover it with a function whose result names the width.
    match meaning(word(avp.payload)) {
        Some(number) => BitSet::only(number).unwrap_or(BitSet::empty()),
        None => BitSet::empty(),
    }
}

impl Body<'_> {
    /// The set of what the numbers in the AVPs of this name stand for.
    pub(crate) fn union<const WIDTH: u32, F: Fn(u32) -> Option<u8>>(
        self,
        carrier: Known,
        meaning: F,
    ) -> BitSet<WIDTH>
        requires { F.IsAlwaysCallable meaning }
        ensures { (m : ℕ → Option ℕ) → Computes (F.post meaning) m WIDTH → result.bits ≡ union carrier m 0 (avps self.entry.bytes.now) }
    {
        let mut set = BitSet::empty();
        for avp in self.avps() {
            set = set.union(member_of(avp, carrier, &meaning));
        }
        set
    }
}

/// The set that a request names holds exactly the numbers that its AVPs carry.
#[tactic(auto, using(crate::proofs::Unions::members))]
pub fn union_of_all()
    ensures { UnionOfAll }
{}
