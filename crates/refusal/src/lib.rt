//! Why a call is turned down: one case for each reason, with its number and the result code of its answer.
#![tactic(auto)]

ghost use Rattle.std.specs.Prelude.{◌≡◌};
ghost use Rattle.refusal.specs.Refusals.{number, code, AllInOrder};

use thiserror::Error;

/// Why a call is turned down. The numbers are those of the interface; within a call the reasons are tried in their order.
#[derive(Clone, Copy, PartialEq, Eq, Debug, Error)]
pub enum Refusal {
    /// No application function has this number.
    #[error("application function not on the sheet")]
    UnknownAf = 1,
    /// The buffer has less than 2,048 bytes.
    #[error("buffer too short")]
    ShortBuffer = 2,
    /// The message has a length that no request has, or another than its header says.
    #[error("message length wrong")]
    WrongSize = 3,
    /// The message is not a request.
    #[error("not a request")]
    NotRequest = 4,
    /// The protocol's version is not 1.
    #[error("version not 1")]
    WrongVersion = 5,
    /// The application is not e2.
    #[error("application not e2")]
    WrongApplication = 6,
    /// The command is not one that we answer.
    #[error("command neither UDR nor SNR")]
    WrongCommand = 7,
    /// The message's AVPs are not a sound sequence.
    #[error("AVPs unsound")]
    Unsound = 8,
    /// An AVP that the receiver has to understand is none that we know.
    #[error("AVP not supported")]
    UnsupportedAvp = 9,
    /// An AVP that may stand once stands again.
    #[error("AVP repeated")]
    RepeatedAvp = 10,
    /// An AVP that the command needs is not there.
    #[error("AVP missing")]
    MissingAvp = 11,
    /// An AVP has data that it may not have.
    #[error("AVP value wrong")]
    WrongAvp = 12,
    /// The request names another application function than the one that asks.
    #[error("application function not the one that asks")]
    WrongAf = 13,
    /// The user name fits several sessions.
    #[error("user name fits several sessions")]
    AmbiguousUser = 14,
    /// No session fits.
    #[error("no session fits")]
    NoSession = 15,
    /// Of the fields asked for none is there to be shown.
    #[error("nothing to show")]
    NothingToShow = 16,
    /// The application function has no place left for a subscription.
    #[error("no place for a subscription")]
    NoPlace = 17,
    /// A length, a set or a field is outside its range.
    #[error("argument out of range")]
    WrongArgument = 18,
    /// The address has a session.
    #[error("address has a session")]
    AddressTaken = 19,
    /// There is no place left for a session.
    #[error("no place for a session")]
    NoRoom = 20,
    /// The address has no session.
    #[error("address has no session")]
    NoSuchAddress = 21,
    /// The value of a field that is a group is not a sound sequence.
    #[error("value unsound")]
    UnsoundValue = 22,
    /// A notice to the application function is out.
    #[error("notice out already")]
    NoticeOut = 23,
    /// No notice waits for the application function.
    #[error("nothing waiting")]
    NothingWaiting = 24,
    /// The slip is not that of the notice that is out.
    #[error("slip not of the notice out")]
    WrongSlip = 25,
    /// The sheet has no application function, or more than 32.
    #[error("number of application functions wrong")]
    WrongAfCount = 26,
    /// A name of the sheet has not 1 to 64 bytes, or is equal to an earlier one.
    #[error("name of an application function wrong")]
    WrongName = 27,
    /// A row of the sheet has bits past the ten fields, or overrides what it does not allow.
    #[error("rights of an application function wrong")]
    WrongRow = 28,
    /// A book or a repository is opened with something outside its range: the places for sessions, the own host or realm,
    /// a rank, a need or an embargo.
    #[error("opening wrong")]
    WrongOpening = 29,
}

/// The result that an answer carries.
#[derive(Clone, Copy, PartialEq, Eq, Debug)]
pub enum ResultCode {
    /// A Result-Code of the base protocol.
    Base(u32),
    /// An Experimental-Result of 3GPP, vendor 10415.
    Experimental(u32),
}

impl Refusal {
    /// Every refusal, in the order of the numbers.
    pub const ALL: [Refusal; 29] = [
        Refusal::UnknownAf,
        Refusal::ShortBuffer,
        Refusal::WrongSize,
        Refusal::NotRequest,
        Refusal::WrongVersion,
        Refusal::WrongApplication,
        Refusal::WrongCommand,
        Refusal::Unsound,
        Refusal::UnsupportedAvp,
        Refusal::RepeatedAvp,
        Refusal::MissingAvp,
        Refusal::WrongAvp,
        Refusal::WrongAf,
        Refusal::AmbiguousUser,
        Refusal::NoSession,
        Refusal::NothingToShow,
        Refusal::NoPlace,
        Refusal::WrongArgument,
        Refusal::AddressTaken,
        Refusal::NoRoom,
        Refusal::NoSuchAddress,
        Refusal::UnsoundValue,
        Refusal::NoticeOut,
        Refusal::NothingWaiting,
        Refusal::WrongSlip,
        Refusal::WrongAfCount,
        Refusal::WrongName,
        Refusal::WrongRow,
        Refusal::WrongOpening,
    ];

    /// The number by which the interface names the refusal.
    // Not `From`: the number is the discriminant, and the interface has a name for it.
    pub fn number(self) -> u8
        ensures { result ≡ number self }
    {
        self as u8
    }

    /// The result that the answer carries, or none where a call is turned down without an answer.
    pub fn result_code(self) -> Option<ResultCode>
        ensures { result ≡ code self }
    {
        match self {
            Refusal::UnknownAf | Refusal::ShortBuffer | Refusal::WrongSize | Refusal::NotRequest =>
                None,
            Refusal::WrongVersion => Some(ResultCode::Base(5011)),
            Refusal::WrongApplication => Some(ResultCode::Base(3007)),
            Refusal::WrongCommand => Some(ResultCode::Base(3001)),
            Refusal::Unsound => Some(ResultCode::Base(5014)),
            Refusal::UnsupportedAvp => Some(ResultCode::Base(5001)),
            Refusal::RepeatedAvp => Some(ResultCode::Base(5009)),
            Refusal::MissingAvp => Some(ResultCode::Base(5005)),
            Refusal::WrongAvp => Some(ResultCode::Base(5004)),
            Refusal::WrongAf => Some(ResultCode::Base(5003)),
            Refusal::AmbiguousUser => Some(ResultCode::Base(5012)),
            Refusal::NoSession => Some(ResultCode::Experimental(5001)),
            Refusal::NothingToShow => Some(ResultCode::Experimental(4100)),
            Refusal::NoPlace => Some(ResultCode::Base(5012)),
            Refusal::WrongArgument
            | Refusal::AddressTaken
            | Refusal::NoRoom
            | Refusal::NoSuchAddress
            | Refusal::UnsoundValue
            | Refusal::NoticeOut
            | Refusal::NothingWaiting
            | Refusal::WrongSlip
            | Refusal::WrongAfCount
            | Refusal::WrongName
            | Refusal::WrongRow
            | Refusal::WrongOpening => None,
        }
    }
}

/// `ALL` has every refusal, at the place of its number.
pub fn all_in_order()
    ensures { AllInOrder }
{}
