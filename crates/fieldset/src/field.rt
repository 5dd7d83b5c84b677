//! The ten fields of a session by name and number, and their sets.
ghost use Rattle.std.specs.Prelude.{◌≡◌, ℕ, ◌^◌, ◌<◌, ◌≤◌, true, MatchResult};
ghost use Rattle.fieldset.specs.Fields.{number};
ghost use Rattle.fieldset.specs.Sets.{has};

use crate::BitSet;
use thiserror::Error;

/// What a session tells about a user's access.
#[derive(Clone, Copy, PartialEq, Eq, Debug)]
pub enum Field {
    UserName = 0,
    LocationInformation = 1,
    PolicyControlContactPoint = 2,
    AccessNetworkType = 3,
    TerminalType = 4,
    LogicalAccessId = 5,
    PhysicalAccessId = 6,
    InitialGateSetting = 7,
    QosProfile = 8,
    EmergencyCallRoutingInfo = 9,
}

/// A set of fields.
pub type FieldSet = BitSet<10>;

impl Field {
    /// The field's number, 0 to 9.
    // Not `From`: the number is the discriminant, and the interface has a name for it.
    pub fn number(self) -> u8
        ensures { result ≡ number self }
    {
        self as u8
    }

    /// The set of this field alone.
    pub fn alone(self) -> FieldSet
        ensures { result.bits ≡ 2 ^ number self }
    {
        FieldSet::from_bits_truncate(1 << self.number())
    }
}

/// A number that no field has.
#[derive(Clone, Copy, PartialEq, Eq, Debug, Error)]
#[error("no field has the number {0}")]
pub struct NoSuchField(pub u8);

impl TryFrom<u8> for Field {
    type Error = NoSuchField;

    ghost try_from_gives = { λ k r. MatchResult r (λ f. number f ≡ k) (λ e. (10 ≤ k) × (e.0 ≡ k)) };

    /// The field of a number, or none from 10 on.
    fn try_from(k: u8) -> Result<Field, NoSuchField> {
        match k {
            0 => Ok(Field::UserName),
            1 => Ok(Field::LocationInformation),
            2 => Ok(Field::PolicyControlContactPoint),
            3 => Ok(Field::AccessNetworkType),
            4 => Ok(Field::TerminalType),
            5 => Ok(Field::LogicalAccessId),
            6 => Ok(Field::PhysicalAccessId),
            7 => Ok(Field::InitialGateSetting),
            8 => Ok(Field::QosProfile),
            9 => Ok(Field::EmergencyCallRoutingInfo),
            _ => Err(NoSuchField(k)),
        }
    }
}

impl FieldSet {
    /// All ten fields.
    #[tactic(auto, using(crate::proofs::Laws::has_ten))]
    pub fn all() -> FieldSet
        ensures is { result.bits ≡ 1023 }
        ensures each { (k : ℕ) → k < 10 → has result.bits k ≡ true }
    {
        FieldSet::from_bits_truncate(1023)
    }
}
