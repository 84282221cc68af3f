// Profiles, sheets and the key tag.
use crate::decoding::EACH_KIND;
use second::{Failed, Fault, Rules, Sheet, TrustList, check_tag, decode, judge, tag};
use std::test::Fail;

const KIND_SHEET: &str =
    "slot least most rank\n1 1 1 0\n2 1 1 0\n3 1 1 1\n7 0 1 1\n8 1 2 2\n9 0 24 3\n11 1 1 24\n";

fn fault(number: u8, place: usize, detail: u8) -> Fault {
    Fault {
        number,
        place,
        detail,
    }
}

/// The message with every kind, some bytes changed, under a profile.
#[test]
fn judges_in_order(rt: HostRuntime) -> Result<(), Fail> {
    let sheet = Sheet::parse(KIND_SHEET.as_bytes());
    assert!(rt; sheet.is_ok());
    let sheet = Rules::Sheet(sheet.unwrap());
    // A RAND of two bytes is too short for every profile.
    let short = decode(rt.alloc(), &EACH_KIND, 24)?;
    for rules in [Rules::Csk, sheet] {
        assert_eq!(rt; judge(&short, &rules), Err(fault(14, 34, 5)));
    }
    assert_eq!(rt; judge(&short, &Rules::Pck), Err(fault(14, 4, 3)));
    Ok(())
}

#[test]
fn tells_the_tag(rt: HostRuntime) {
    assert_eq!(rt; tag(0, &[], &[1, 2]), 130);
    assert_eq!(rt; tag(0, &[1], &[2]), 130);
    // The key's top bit comes round to bit 6.
    assert_eq!(rt; tag(1 << 63, &[], &[0]), 64);
}

#[test]
fn checks_the_tag(rt: HostRuntime) -> Result<(), Fail> {
    let span = [1, 26, 4, 1, 0, 0, 0, 0, 0, 1, 0x20, 8];
    let mut bytes = Vec::from_slice(rt.alloc(), &span)?;
    bytes.extend_from_slice(tag(77, &[], &span).to_be_bytes().as_slice())?;
    let read = decode(rt.alloc(), bytes.as_slice(), 24)?;
    assert_eq!(rt; check_tag(&read, bytes.as_slice(), 77), Ok(()));
    assert_eq!(rt;
        check_tag(&read, bytes.as_slice(), 78),
        Err(Fault::at(18, 12))
    );
    let other = decode(rt.alloc(), &EACH_KIND, 24)?;
    assert_eq!(rt; check_tag(&other, &EACH_KIND, 77), Err(Fault::at(18, 72)));
    Ok(())
}

/// Texts that are no sheet, and where.
#[test]
fn refuses_sheets(rt: HostRuntime) {
    let texts = [
        ("", fault(29, 0, 0)),
        ("slot least most rank", fault(29, 0, 0)),
        ("slot least most rank\r\n", fault(29, 0, 0)),
        ("slot least most rank\n2 1,5 1 0\n", fault(30, 21, 0)),
        ("slot least most rank\n2 1 1 0", fault(30, 21, 0)),
        ("slot least most rank\n2 1 1 0\n\n", fault(30, 29, 0)),
        ("slot least most rank\n2 01 1 0\n", fault(30, 21, 0)),
        ("slot least most rank\n2 1 100 0\n", fault(30, 21, 0)),
        ("slot least most rank\n0 0 1 0\n", fault(31, 21, 0)),
        ("slot least most rank\n13 0 1 0\n", fault(31, 21, 0)),
        ("slot least most rank\n2 2 1 0\n", fault(31, 21, 0)),
        ("slot least most rank\n2 1 25 0\n", fault(31, 21, 0)),
        ("slot least most rank\n2 1 1 25\n", fault(31, 21, 0)),
        ("slot least most rank\n2 1 1 0\n2 1 1 0\n", fault(31, 29, 0)),
        ("slot least most rank\n2 2 1 0\n3\n", fault(31, 21, 0)),
    ];
    for (text, expected) in texts {
        assert_eq!(rt;
            Sheet::parse(text.as_bytes()).err(),
            Some(expected),
            "{text}"
        );
    }
    assert!(rt; Sheet::parse(b"slot least most rank\n").is_ok());
}

/// Whether a refusal of this number is told, or none where it is 0.
fn is_told(told: Result<(), Failed>, number: u8) -> bool {
    match told {
        Ok(()) => number == 0,
        Err(Failed::Refused(fault)) => fault == Fault::of(number),
        Err(Failed::Memory(_)) => false,
    }
}

/// Signers that a trust list takes: of 1 to 128 bytes, one that is there also when the list is full.
#[test]
fn enters_signers(rt: HostRuntime) {
    let mut list = TrustList::new(rt.alloc());
    assert!(rt; is_told(list.enter(&[]), 27));
    assert!(rt; is_told(list.enter(&[0; 129]), 27));
    assert!(rt; is_told(list.enter(&[0; 128]), 0));
    for signer in [b"1", b"2", b"3", b"4", b"5", b"6", b"7"] {
        assert!(rt; is_told(list.enter(signer), 0));
    }
    assert!(rt; is_told(list.enter(b"8"), 28));
    assert!(rt; is_told(list.enter(b"7"), 0));
    assert!(rt; list.lists(b"7") && !list.lists(b"8") && !list.lists(&[]));
}
