//! One walk over the AVPs of a request, which notes what can be wrong with them.
ghost use Rattle.std.specs.Prelude.{◌≡◌, cond, Some, None, MatchResult};
ghost use Rattle.std.specs.Option.{option_or};
ghost use Rattle.diameter.specs.Lists.{avps};
ghost use Rattle.diameter.specs.Views.{avp_of, found};
ghost use Rattle.request.specs.Faults.{again, also, stranger, misfit_by, lacking, needed_by, missing_by};
ghost use Rattle.request.specs.Scans.{marked, Scans};

use crate::body::Body;
use crate::fault::{is_misfit, is_repeat, stranger_in};
use diameter::avp::AvpView;
use dictionary::known::Known;
use dictionary::number::Time;
use e2::Command;

/// What a walk notes: the first AVP that may stand once and stands again, the first whose data are wrong, and which known AVPs are there.
#[derive(Clone, Copy)]
pub(crate) struct Scan<'a> {
    pub(crate) repeat: Option<AvpView<'a>>,
    pub(crate) misfit: Option<AvpView<'a>>,
    // An array by the place in the dictionary, not a set of std: no call takes memory.
    seen: [bool; Known::COUNT],
}

impl<'a> Scan<'a> {
    /// Notes one AVP more, which is known as `known`; an end has to be later than `after`, where there is such a time.
    fn note(&mut self, avp: AvpView<'a>, known: Known, after: Option<Time>)
        ensures repeat { found self.new.repeat ≡ option_or (found self.old.repeat) (cond (again (Some known) (marked self.old.seen)) (Some (avp_of avp.entry)) None) }
        ensures misfit { found self.new.misfit ≡ option_or (found self.old.misfit) (misfit_by after (Some known) (avp_of avp.entry)) }
        ensures seen { (k : Known) → marked self.new.seen k ≡ also (Some known) (marked self.old.seen) k }
    {
        let place = known.index() as usize;
        if self.repeat.is_none() && is_repeat(known, self.seen[place]) {
            self.repeat = Some(avp);
        }
        if self.misfit.is_none() && is_misfit(avp, known, after) {
            self.misfit = Some(avp);
        }
        self.seen[place] = true;
    }

    /// Whether a known AVP is there.
    fn has(&self, known: Known) -> bool
        ensures { result ≡ marked self.now.seen known }
    {
        self.seen[known.index() as usize]
    }

    /// The first AVP that this command needs beside what every request needs, and that is not there.
    fn missing_for(&self, command: Command) -> Option<Known>
        ensures { result ≡ lacking (needed_by command (marked self.now.seen)) }
    {
        if command == Command::SubscribeNotifications {
            if !self.has(Known::SubsReqType) {
                return Some(Known::SubsReqType);
            }
            if !self.has(Known::EventType) {
                return Some(Known::EventType);
            }
        }
        let has_subject = self.has(Known::GloballyUniqueAddress) || self.has(Known::UserName);
        (!has_subject).then_some(Known::GloballyUniqueAddress)
    }

    /// The first AVP that a request needs and that is not there, where `is_headed` says that the Session-Id is first.
    pub(crate) fn missing(&self, command: Command, is_headed: bool) -> Option<Known>
        ensures { result ≡ missing_by command is_headed (marked self.now.seen) }
    {
        if !is_headed {
            return Some(Known::SessionId);
        }
        let needed: &[Known] = &[
            Known::VendorSpecificApplicationId,
            Known::AuthSessionState,
            Known::OriginHost,
            Known::OriginRealm,
            Known::DestinationRealm,
            Known::AfApplicationIdentifier,
        ];
        // Not `or_else`: what its closure promises comes out empty, and what is computed here is little.
        needed
            .iter()
            .copied()
            .find(|known| !self.has(*known))
            .or(self.missing_for(command))
    }
}

impl<'a> Body<'a> {
    /// Walks over all AVPs, or up to the first that has to be understood and is unknown, at the first level or directly in an address.
    /// An end has to be later than `after`, where there is such a time.
    pub(crate) fn scan(self, after: Option<Time>) -> Result<Scan<'a>, AvpView<'a>>
        ensures { MatchResult result (Scans after (avps self.entry.bytes.now)) (λ avp. Some (avp_of avp) ≡ stranger (avps self.entry.bytes.now)) }
    {
        let mut scan = Scan {
            repeat: None,
            misfit: None,
            seen: [false; Known::COUNT],
        };
        for avp in self.avps() {
            let known = Known::named(avp.name());
            if let Some(stranger) = stranger_in(avp, known) {
                return Err(stranger);
            }
            if let Some(known) = known {
                scan.note(avp, known, after);
            }
        }
        Ok(scan)
    }
}
