//! Worked bytes.
ghost use Rattle.std.specs.Prelude.{[], ◌∷◌, if◌then◌else◌, nat_eq};

use crate::{Draft, FieldSource, NoFields};
use diameter::header::Header;
use dictionary::known::Known;
use fieldset::{Field, FieldSet};
use message::Origin;
use refusal::ResultCode;
use request::asking::FaultyAvp;

/// A user and a terminal.
struct Sample;

impl FieldSource for Sample {
    ghost value = { λ _ k. (if nat_eq k 0 then 98 ∷ 111 ∷ 98 ∷ [] else (if nat_eq k 4 then 100 ∷ 115 ∷ 108 ∷ [] else [])) };

    fn value(&self, field: Field) -> &[u8] {
        match field {
            Field::UserName => b"bob",
            Field::TerminalType => b"dsl",
            _ => b"",
        }
    }
}

const ASKED: Header = Header {
    version: 1,
    length: 20,
    flags: 0xC0,
    command: 306,
    application: 16777231,
    hop_by_hop: 0x11223344,
    end_to_end: 0x55667788,
};

const SHOWN: [u8; 140] =
    *b"\x01\x00\x00\x8c@\x00\x012\x01\x00\x00\x0f\x11\x223DUfw\x88\x00\x00\x01\x07@\x00\x00\x09s\x00\x00\x00\x00\x00\x01\x04@\x00\x00 \x00\x00\x01\x0a@\x00\x00\x0c\x00\x002\xdb\x00\x00\x01\x02@\x00\x00\x0c\x01\x00\x00\x0f\x00\x00\x01\x0c@\x00\x00\x0c\x00\x00\x07\xd1\x00\x00\x01\x15@\x00\x00\x0c\x00\x00\x00\x01\x00\x00\x01\x08@\x00\x00\x0bclf\x00\x00\x00\x01(@\x00\x00\x0ctown\x00\x00\x00\x01@\x00\x00\x0bbob\x00\x00\x00\x01`\x80\x00\x00\x0f\x00\x002\xdbdsl\x00";

const TOLD: [u8; 136] =
    *b"\x01\x00\x00\x88\x00\x00\x014\x01\x00\x00\x0f\x00\x00\x00\x01\x00\x00\x00\x02\x00\x00\x01\x07@\x00\x00\x09s\x00\x00\x00\x00\x00\x01\x04@\x00\x00 \x00\x00\x01\x0a@\x00\x00\x0c\x00\x002\xdb\x00\x00\x01\x02@\x00\x00\x0c\x01\x00\x00\x0f\x00\x00\x01\x0c@\x00\x00\x0c\x00\x00\x13\x8d\x00\x00\x01\x15@\x00\x00\x0c\x00\x00\x00\x01\x00\x00\x01\x08@\x00\x00\x0bclf\x00\x00\x00\x01(@\x00\x00\x0ctown\x00\x00\x01\x17@\x00\x00\x18\x00\x00\x02\xc1\xc0\x00\x00\x10\x00\x00(\xaf\x00\x00\x00\x00";

#[test]
fn fields_are_shown(rt: HostRuntime) {
    let mut out = [9u8; 2048];
    let origin = Origin::new(b"clf", b"town");
    let draft = Draft::new(ASKED, b"s", ResultCode::Base(2001), origin, &Sample);
    let set = FieldSet::from_bits_truncate(0b1_0001);
    let size = draft.show(set).close().write(&mut out);
    assert!(rt; size == 140);
    assert!(rt; out[140] == 9);
    assert!(rt; out[0..140] == SHOWN[0..140]);
}

#[test]
fn missing_avp_is_told(rt: HostRuntime) {
    let mut out = [9u8; 2048];
    let origin = Origin::new(b"clf", b"town");
    let asked = Header {
        flags: 0x80,
        command: 308,
        hop_by_hop: 1,
        end_to_end: 2,
        ..ASKED
    };
    let draft = Draft::new(asked, b"s", ResultCode::Base(5005), origin, &NoFields);
    let size = draft
        .tell(Some(FaultyAvp::Missing(Known::SubsReqType)))
        .close()
        .write(&mut out);
    assert!(rt; size == 136);
    assert!(rt; out[136] == 9);
    assert!(rt; out[0..136] == TOLD[0..136]);
}
