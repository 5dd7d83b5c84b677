//! The known AVPs by name.
ghost use Rattle.std.specs.Prelude.{◌≡◌, ◌<◌};
ghost use Rattle.dictionary.specs.Names.{known, code, vendor, flags, shortest, index, repeats};
ghost use Rattle.dictionary.specs.Laws.{NamesAgree};
ghost use Rattle.diameter.specs.Lists.{named};

use diameter::avp::{AvpName, AvpView};
use diameter::search::AvpTest;

/// An AVP that a request may hold.
#[derive(Clone, Copy, PartialEq, Eq, Debug)]
pub enum Known {
    UserName,
    FramedIpAddress,
    VendorSpecificApplicationId,
    SessionId,
    OriginHost,
    AuthSessionState,
    RouteRecord,
    DestinationRealm,
    ProxyInfo,
    DestinationHost,
    OriginRealm,
    GloballyUniqueAddress,
    AddressRealm,
    RequestedInformation,
    EventType,
    AfApplicationIdentifier,
    SubsReqType,
    ExpiryTime,
}

impl Known {
    /// How many there are.
    pub const COUNT: usize = 18;

    /// The known AVP of this name, where there is one.
    pub fn named(name: AvpName) -> Option<Known>
        ensures { result ≡ known name.code name.vendor }
    {
        let known = match (name.vendor, name.code) {
            (0, 1) => Known::UserName,
            (0, 8) => Known::FramedIpAddress,
            (0, 260) => Known::VendorSpecificApplicationId,
            (0, 263) => Known::SessionId,
            (0, 264) => Known::OriginHost,
            (0, 277) => Known::AuthSessionState,
            (0, 282) => Known::RouteRecord,
            (0, 283) => Known::DestinationRealm,
            (0, 284) => Known::ProxyInfo,
            (0, 293) => Known::DestinationHost,
            (0, 296) => Known::OriginRealm,
            (13019, 300) => Known::GloballyUniqueAddress,
            (13019, 301) => Known::AddressRealm,
            (13019, 353) => Known::RequestedInformation,
            (13019, 354) => Known::EventType,
            (10415, 504) => Known::AfApplicationIdentifier,
            (10415, 705) => Known::SubsReqType,
            (10415, 709) => Known::ExpiryTime,
            _ => return None,
        };
        Some(known)
    }

    pub fn code(self) -> u32
        ensures { result ≡ code self }
    {
        match self {
            Known::UserName => 1,
            Known::FramedIpAddress => 8,
            Known::VendorSpecificApplicationId => 260,
            Known::SessionId => 263,
            Known::OriginHost => 264,
            Known::AuthSessionState => 277,
            Known::RouteRecord => 282,
            Known::DestinationRealm => 283,
            Known::ProxyInfo => 284,
            Known::DestinationHost => 293,
            Known::OriginRealm => 296,
            Known::GloballyUniqueAddress => 300,
            Known::AddressRealm => 301,
            Known::RequestedInformation => 353,
            Known::EventType => 354,
            Known::AfApplicationIdentifier => 504,
            Known::SubsReqType => 705,
            Known::ExpiryTime => 709,
        }
    }

    pub fn vendor(self) -> u32
        ensures { result ≡ vendor self }
    {
        match self {
            Known::GloballyUniqueAddress
            | Known::AddressRealm
            | Known::RequestedInformation
            | Known::EventType => 13019,
            Known::AfApplicationIdentifier | Known::SubsReqType | Known::ExpiryTime => 10415,
            _ => 0,
        }
    }

    pub fn name(self) -> AvpName
        ensures { result ≡ record { code = code self; vendor = vendor self } }
    {
        AvpName {
            code: self.code(),
            vendor: self.vendor(),
        }
    }

    /// The flags that we write with the AVP.
    pub fn flags(self) -> u8
        ensures { result ≡ flags self }
    {
        match self {
            Known::GloballyUniqueAddress
            | Known::AddressRealm
            | Known::AfApplicationIdentifier
            | Known::SubsReqType => 0xC0,
            Known::RequestedInformation | Known::EventType | Known::ExpiryTime => 0x80,
            _ => 0x40,
        }
    }

    /// The least length of its data, 0 for a group.
    pub fn shortest(self) -> usize
        ensures { result ≡ shortest self }
    {
        match self {
            Known::VendorSpecificApplicationId | Known::ProxyInfo | Known::GloballyUniqueAddress =>
                0,
            Known::FramedIpAddress
            | Known::AuthSessionState
            | Known::RequestedInformation
            | Known::EventType
            | Known::SubsReqType
            | Known::ExpiryTime => 4,
            _ => 1,
        }
    }

    /// Its place in the dictionary, counted from 0.
    pub fn index(self) -> u32
        ensures is { result ≡ index self }
        ensures within { result < 18 }
    {
        self as u32
    }

    /// Whether it may stand more than once in a request.
    pub fn repeats(self) -> bool
        ensures { result ≡ repeats self }
    {
        matches!(
            self,
            Known::RouteRecord | Known::ProxyInfo | Known::RequestedInformation | Known::EventType
        )
    }
}

/// As a test of AVPs it passes those of its name.
impl AvpTest for Known {
    ghost holds = { λ k. named (code k) (vendor k) };

    fn passes(&self, avp: AvpView<'_>) -> bool {
        avp.name() == self.name()
    }
}

/// Each known AVP is found under the name that we write for it.
pub fn names_agree()
    ensures { NamesAgree }
{}
