// Small messages, and what is refused of them.
use second::{Failed, Fault, Row, decode, encode, part, time};
use std::alloc::Global;
use std::test::Fail;

/// A header and SIGN alone, with a signature of one byte.
const SIGN_ALONE: [u8; 13] = [1, 0x1a, 4, 1, 0x20, 0, 0, 1, 0, 1, 0x20, 1, 0xaa];

/// One session of 13 bytes, and a payload of each kind.
pub const EACH_KIND: [u8; 73] = [
    1, 26, 5, 1, 0x20, 0, 0, 1, 1, 2, // fixed header
    9, 0, 1, 7, 0, 4, 0x11, 0x22, 0x33, 0x44, 2, 0xaa, 0xbb, // session: SSRC, SPI of two bytes
    11, 0, 0, 0, 0, 0, 0, 0, 1, 2, // T
    14, 2, 3, 4, // RAND
    10, 1, 1, 0, 2, 0x61, 0x62, // IDR of role 1
    26, 0, 0, 0, 5, 1, 0, 2, 1, 0xff, // SP with two items
    21, 1, 2, 0, 1, 0x5a, // SAKKE
    4, 6, 0, 6, 0, 1, 2, 0, 1, 0x5b, // EXT of type 6
    0x20, 1, 0xcc, // SIGN
];

fn refusal(alloc: Global, bytes: &[u8], rows_lent: usize) -> Option<Fault> {
    match decode(alloc, bytes, rows_lent) {
        Err(Failed::Refused(fault)) => Some(fault),
        _ => None,
    }
}

fn row(code: u8, slot: u8, start: usize, length: usize) -> Row {
    Row {
        code,
        slot,
        start,
        length,
    }
}

#[test]
fn reads_sign_alone(rt: HostRuntime) -> Result<(), Fail> {
    let read = decode(rt.alloc(), &SIGN_ALONE, 24)?;
    assert_eq!(rt; read.rows.as_slice(), [row(4, 11, 10, 3)].as_slice());
    assert_eq!(rt; (read.header, read.span), (10, 12));
    assert_eq!(rt; read.signer.len(), 0);
    assert_eq!(rt;
        (read.message.csb, read.message.sign_type),
        (0x2000_0001, 2)
    );
    let bytes = encode(rt.alloc(), &read.message)?;
    assert_eq!(rt; bytes.as_slice(), SIGN_ALONE.as_slice());
    Ok(())
}

#[test]
fn reads_each_kind(rt: HostRuntime) -> Result<(), Fail> {
    let read = decode(rt.alloc(), &EACH_KIND, 30)?;
    let rows = [
        row(5, 1, 23, 10),
        row(11, 2, 33, 4),
        row(14, 3, 37, 7),
        row(10, 7, 44, 10),
        row(26, 8, 54, 6),
        row(21, 9, 60, 10),
        row(4, 11, 70, 3),
    ];
    assert_eq!(rt; read.rows.as_slice(), rows.as_slice());
    assert_eq!(rt; (read.header, read.span), (23, 72));
    assert_eq!(rt; read.signer.as_slice(), b"ab".as_slice());
    let bytes = encode(rt.alloc(), &read.message)?;
    assert_eq!(rt; bytes.as_slice(), EACH_KIND.as_slice());
    assert_eq!(rt; part(&EACH_KIND, 23, 10).and_then(|t| time(t)), Ok(258));
    Ok(())
}

#[test]
fn refuses_in_order(rt: HostRuntime) {
    let trailed: [u8; 14] = [1, 26, 4, 1, 0, 0, 0, 0, 0, 1, 0x20, 1, 0xaa, 0];
    let cases: [(&[u8], usize, Fault); 5] = [
        (&SIGN_ALONE, 23, Fault::of(1)),
        (&[0; 8193], 24, Fault::at(2, 8192)),
        (&SIGN_ALONE[..9], 24, Fault::at(3, 9)),
        (&SIGN_ALONE[..12], 24, Fault::at(11, 10)),
        (&trailed, 24, Fault::at(13, 13)),
    ];
    for (bytes, rows_lent, expected) in cases {
        assert_eq!(rt;
            refusal(rt.alloc(), bytes, rows_lent),
            Some(expected),
            "{expected:?}"
        );
    }
}

/// Each byte of the message with every kind, changed to a value that a rule forbids.
#[test]
fn refuses_a_changed_byte(rt: HostRuntime) {
    let changes = [
        (0, 2, Fault::at(4, 0)),
        (1, 27, Fault::at(5, 1)),
        (9, 1, Fault::at(6, 8)),
        (8, 5, Fault::at(6, 8)),
        (8, 2, Fault::at(9, 29)),
        (20, 255, Fault::at(7, 10)),
        (11, 1, Fault::at(8, 10)),
        (12, 0x81, Fault::at(8, 10)),
        (2, 0, Fault::at(9, 2)),
        (23, 6, Fault::at(9, 23)),
        (24, 1, Fault::at(12, 23)),
        (34, 255, Fault::at(11, 33)),
        (50, 4, Fault::at(12, 44)),
        (68, 2, Fault::at(12, 60)),
        (71, 0, Fault::at(12, 70)),
        (71, 2, Fault::at(11, 70)),
    ];
    for (index, value, expected) in changes {
        let mut changed = EACH_KIND;
        if index < changed.len() {
            changed[index] = value;
        }
        assert_eq!(rt;
            refusal(rt.alloc(), &changed, 24),
            Some(expected),
            "byte {index}"
        );
    }
}

/// 23 empty RANDs before SIGN are taken, and of 24 the SIGN after them is the 25th.
#[test]
fn refuses_the_25th(rt: HostRuntime) -> Result<(), Fail> {
    for (count, expected) in [(23u8, None), (24, Some(Fault::at(10, 58)))] {
        let mut bytes = Vec::from_slice(rt.alloc(), &[1, 26, 11, 1, 0, 0, 0, 0, 0, 1])?;
        for i in 1..=count {
            bytes.push(if i == count { 4 } else { 11 })?;
            bytes.push(0)?;
        }
        bytes.extend_from_slice(&[0x20, 1, 0xaa])?;
        assert_eq!(rt;
            refusal(rt.alloc(), bytes.as_slice(), 24),
            expected,
            "{count}"
        );
    }
    Ok(())
}

#[test]
fn tells_parts(rt: HostRuntime) {
    let cases: [(usize, usize, Result<&[u8], Fault>); 4] = [
        (1, 2, Ok(&[2, 3])),
        (3, 0, Ok(&[])),
        (2, 2, Err(Fault::of(26))),
        (usize::MAX, 2, Err(Fault::of(26))),
    ];
    for (start, length, expected) in cases {
        assert_eq!(rt;
            part(&[1, 2, 3], start, length),
            expected,
            "{start} {length}"
        );
    }
}

#[test]
fn tells_times(rt: HostRuntime) {
    let cases: [(&[u8], Result<u64, Fault>); 4] = [
        (&[5, 1, 0], Err(Fault::of(11))),
        (&[5, 1, 0, 0, 0, 0, 0, 0, 0, 0, 0], Err(Fault::of(12))),
        (&[5, 0, 0, 0, 0, 0, 0, 0, 0, 0, 0], Err(Fault::of(13))),
        (&[5, 0, 1, 0, 0, 0, 0, 0, 0, 2], Ok(0x0100_0000_0000_0002)),
    ];
    for (payload, expected) in cases {
        assert_eq!(rt; time(payload), expected, "{payload:?}");
    }
}
