//! Soundness of a sequence of AVPs.
ghost use Rattle.std.specs.Prelude.{◌≡◌};
ghost use Rattle.diameter.specs.Soundness.{sound};

use crate::avp::is_group;
use crate::avps::Avps;

/// Whether the bytes are all AVPs, with groups that nest at most `levels` deep.
pub fn is_sound(bytes: &[u8], levels: u8) -> bool
    ensures { result ≡ sound levels bytes.now }
{
    let mut avps = Avps::new(bytes);
    // Not a `for` over `&mut avps`: what such a loop leaves in `avps` is not proved, and at the end that decides.
    while let Some(avp) = avps.next() {
        if is_group(avp.name()) && (levels == 0 || !is_sound(avp.payload, levels - 1)) {
            return false;
        }
    }
    avps.rest().is_empty()
}

#[cfg(test)]
mod tests {
    use super::*;
    use crate::avp::AvpName;
    use crate::search::{count_such, first_such};

    // The worked example of the documentation: a Session-Id `x` with its padding, and an address group of two AVPs.
    const SEQUENCE: [u8; 52] = [
        0, 0, 1, 7, 0x40, 0, 0, 9, b'x', 0, 0, 0, // Session-Id
        0, 0, 1, 0x2C, 0xC0, 0, 0, 40, 0, 0, 0x32, 0xDB, // Globally-Unique-Address
        0, 0, 0, 8, 0x40, 0, 0, 12, 10, 0, 0, 7, // Framed-IP-Address
        0, 0, 1, 0x2D, 0xC0, 0, 0, 16, 0, 0, 0x32, 0xDB, b't', b'o', b'w', b'n', // Address-Realm
    ];

    #[test]
    fn documented_sequence(rt: HostRuntime) {
        assert!(rt; is_sound(&SEQUENCE, 1));
        assert!(rt; !is_sound(&SEQUENCE, 0), "a group wants a level");
        assert!(rt;
            !is_sound(&SEQUENCE[0..48], 1),
            "the last AVP passes the end"
        );
        assert_eq!(rt;
            count_such(
                &AvpName {
                    code: 263,
                    vendor: 0,
                },
                &SEQUENCE,
            ),
            1
        );
        assert_eq!(rt;
            count_such(&AvpName { code: 8, vendor: 0 }, &SEQUENCE),
            0,
            "it stands inside the group"
        );
        assert!(rt;
            first_such(
                &AvpName {
                    code: 300,
                    vendor: 13019,
                },
                &SEQUENCE,
            )
            .is_some()
        );
    }
}
