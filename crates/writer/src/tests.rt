//! Worked bytes.
ghost use Rattle.std.specs.Prelude.{◌≡◌};

use crate::avp::AvpHead;
use crate::writer::Writer;

/// A head with flag M and no vendor.
fn mandatory(code: u32) -> AvpHead
    ensures { result ≡ record { code = code; flags = 0x40; vendor = 0 } }
{
    AvpHead {
        code,
        flags: 0x40,
        vendor: 0,
    }
}

#[test]
fn group_of_two(rt: HostRuntime) {
    let mut out = [9u8; 36];
    let mut w = Writer::new(&mut out);
    w.avp_header(mandatory(297), 24);
    w.avp_u32(mandatory(266), 10415);
    w.avp_u32(mandatory(298), 5001);
    assert!(rt; w.end() == 32);
    assert!(rt;
        out == *b"\x00\x00\x01\x29\x40\x00\x00\x20\x00\x00\x01\x0a\x40\x00\x00\x0c\x00\x00\x28\xaf\x00\x00\x01\x2a\x40\x00\x00\x0c\x00\x00\x13\x89\x09\x09\x09\x09"
    );
}

#[test]
fn vendor_digits_and_padding(rt: HostRuntime) {
    let mut digits = [9u8; 10];
    let mut w = Writer::new(&mut digits);
    w.decimal(70105);
    assert!(rt; w.end() == 5);
    let mut out = [9u8; 24];
    let mut w = Writer::new(&mut out);
    w.avp(
        AvpHead {
            code: 301,
            flags: 0xC0,
            vendor: 13019,
        },
        &digits[0..5],
    );
    assert!(rt; w.end() == 20);
    assert!(rt;
        out == *b"\x00\x00\x01\x2d\xc0\x00\x00\x11\x00\x00\x32\xdb70105\x00\x00\x00\x09\x09\x09\x09"
    );
}
