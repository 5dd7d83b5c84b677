//! AVPs of ours, each of a kind that tells what its header says.
ghost use Rattle.std.specs.Prelude.{◌≡◌};
ghost use Rattle.fieldset.specs.Fields.{number};
ghost use Rattle.dictionary.specs.Names as names;
ghost use Rattle.writer.specs.declared.avp.AvpHead.{AvpHead};
ghost use Rattle.message.specs.Fields.{field_code, field_vendor, field_flags};

use dictionary::known::Known;
use fieldset::Field;
use writer::avp::AvpHead;

/// What tells the header of an AVP but for its length.
pub trait AvpKind: Copy {
    ghost head: { Self → AvpHead };

    /// The code, the flags that we write with it, and the vendor.
    fn head(self) -> AvpHead
        ensures { result ≡ head self };
}

/// A head is a kind of its own, for the AVPs that no enum names.
impl AvpKind for AvpHead {
    ghost head = { λ h. h };

    fn head(self) -> AvpHead {
        self
    }
}

impl AvpKind for Known {
    ghost head = { λ k. record { code = names.code k; flags = names.flags k; vendor = names.vendor k } };

    fn head(self) -> AvpHead {
        AvpHead {
            code: self.code(),
            flags: self.flags(),
            vendor: self.vendor(),
        }
    }
}

impl AvpKind for Field {
    ghost head = { λ f. record { code = field_code (number f); flags = field_flags (number f); vendor = field_vendor (number f) } };

    fn head(self) -> AvpHead {
        let code = match self {
            Field::UserName => 1,
            Field::LocationInformation => 350,
            Field::PolicyControlContactPoint => 351,
            Field::AccessNetworkType => 306,
            Field::TerminalType => 352,
            Field::LogicalAccessId => 302,
            Field::PhysicalAccessId => 313,
            Field::InitialGateSetting => 303,
            Field::QosProfile => 304,
            Field::EmergencyCallRoutingInfo => 361,
        };
        match self {
            Field::UserName => AvpHead {
                code,
                flags: 0x40,
                vendor: 0,
            },
            _ => AvpHead {
                code,
                flags: 0x80,
                vendor: 13019,
            },
        }
    }
}
