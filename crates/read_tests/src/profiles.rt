use crate::build::{KEY, SIGNER, Unsigned};
use profile::{AnyProfile, Bounds, Fixed, Profile, Sheet, UnknownProfile};
use reader::read;
use std::alloc::{AllocError, Global};
use std::process::Abort;
use std::test::Fail;
use verifier::{KeyTag, TrustList};
use wire::{Refusal, Row, Walked};

// A row that no read writes.
pub(crate) const OLD: Row = Row {
    code: 9,
    slot: 9,
    start: 9,
    length: 9,
};

const IDENTITIES: [u8; 4] = [1, 2, 6, 7];

// Every payload that the fixed profiles take, each once: T at 10, RAND at 20, IDRs at 38, 44, 50
// and 56, SP at 62, SAKKE at 67, EXT of type 6 at 73 and of type 7 at 83, SIGN at 87, where there
// is no session.
pub(crate) fn whole(heap: Global, purpose: u8, sessions: u8) -> Result<Vec<u8>, AllocError> {
    let mut message = Unsigned::new(heap, purpose, sessions)?;
    message.add(5, &[0; 9])?;
    message.add(
        11,
        &[16, 0, 1, 2, 3, 4, 5, 6, 7, 8, 9, 10, 11, 12, 13, 14, 15],
    )?;
    for role in IDENTITIES {
        message.add(14, &[role, 1, 0, 1, b'a'])?;
    }
    message.add(10, &[0, 0, 0, 0])?;
    message.add(26, &[1, 2, 0, 1, 7])?;
    message.add(21, &[6, 0, 6, 0, 1, 2, 0, 1, 7])?;
    message.add(21, &[7, 0, 0])?;
    message.sign()
}

fn under<P: Profile>(message: &[u8], profile: &P) -> Result<Walked, Refusal> {
    let mut rows = [OLD; 25];
    read(message, &mut rows, profile, &KEY)
}

pub(crate) fn told(count: usize, header: usize, span: usize) -> Result<Walked, Refusal> {
    Ok(Walked {
        count,
        header,
        span,
    })
}

// A profile chosen at run time answers as the chosen one does.
#[test]
fn questions(rt: HostRuntime) -> Result<(), Fail> {
    let gmk = AnyProfile::Fixed(Fixed::Gmk);
    assert!(rt; gmk.takes(3, 0));
    assert!(rt; !gmk.takes(3, 1));
    assert!(rt; !gmk.takes(0, 0));
    assert!(rt; !gmk.takes(11, 1));
    assert_eq!(rt; gmk.bounds(10), Bounds { least: 1, most: 1 });
    assert_eq!(rt; gmk.bounds(13), Bounds { least: 0, most: 0 });
    assert_eq!(rt; gmk.rank(11), 0);
    let sheet = AnyProfile::Sheet(Sheet::parse(b"slot least most rank\n2 1 3 7\n")?);
    assert!(rt; sheet.takes(3, 15));
    assert!(rt; !sheet.takes(3, 16));
    assert_eq!(rt; sheet.bounds(2), Bounds { least: 1, most: 3 });
    assert_eq!(rt; sheet.bounds(255), Bounds { least: 0, most: 0 });
    assert_eq!(rt; sheet.rank(2), 7);
    assert_eq!(rt; sheet.rank(3), 0);
    Ok(())
}

// A copy of a profile or of a sheet answers as the one that it was made of, which stays.
#[test]
fn copies_of_profiles(rt: HostRuntime) -> Result<(), Fail> {
    let pck = AnyProfile::Fixed(Fixed::Pck);
    let copy = pck.clone()?;
    assert!(rt; copy.takes(3, 1));
    assert!(rt; !copy.takes(3, 0));
    assert_eq!(rt; copy.bounds(10), Bounds { least: 0, most: 1 });
    assert!(rt; pck.takes(3, 1));
    let sheet = AnyProfile::Sheet(Sheet::parse(b"slot least most rank\n2 1 3 7\n")?);
    let copy = sheet.clone()?;
    for profile in [&copy, &sheet] {
        assert!(rt; profile.takes(3, 15));
        assert_eq!(rt; profile.bounds(2), Bounds { least: 1, most: 3 });
        assert_eq!(rt; profile.rank(2), 7);
        assert_eq!(rt; profile.bounds(3), Bounds { least: 0, most: 0 });
    }
    let line = Sheet::parse(b"slot least most rank\n11 1 2 24\n")?;
    let copy = line.clone()?;
    assert_eq!(rt; copy.bounds(11), Bounds { least: 1, most: 2 });
    assert_eq!(rt; copy.rank(11), 24);
    Ok(())
}

// Fields with the lowest and the highest value that is taken, slots with their counts.
#[test]
fn tables_of_fixed_profiles(rt: HostRuntime) {
    for (fixed, purpose, sessions, parameters) in [
        (Fixed::Csk, 2, 1, 0),
        (Fixed::Pck, 1, 1, 0),
        (Fixed::Gmk, 0, 4, 1),
    ] {
        for (field, low, high) in [
            (0, 1, 0),
            (1, 0, 0),
            (2, 1, 1),
            (3, purpose, purpose),
            (4, 0, sessions),
            (5, 16, 255),
            (6, 1, 1),
            (7, 0, 0),
            (8, 1, 1),
            (9, 2, 2),
            (10, 2, 2),
            (11, 1, 0),
            (255, 1, 0),
        ] {
            for value in 0..=255 {
                assert_eq!(rt; fixed.takes(field, value), low <= value && value <= high);
            }
        }
        for (slot, least, most) in [
            (0, 0, 0),
            (1, 1, 1),
            (2, 1, 1),
            (3, 1, 1),
            (4, 1, 1),
            (5, 1, 1),
            (6, 1, 1),
            (7, 0, 1),
            (8, 1, 1),
            (9, 0, 1),
            (10, parameters, 1),
            (11, 1, 1),
            (12, 0, 0),
            (13, 0, 0),
            (255, 0, 0),
        ] {
            assert_eq!(rt; fixed.bounds(slot), Bounds { least, most });
            assert_eq!(rt; fixed.rank(slot), 0);
        }
    }
}

// By its name, which is told from every other.
#[test]
fn names_of_fixed_profiles(rt: HostRuntime) {
    for (name, fixed) in [
        ("csk", Fixed::Csk),
        ("pck", Fixed::Pck),
        ("gmk", Fixed::Gmk),
    ] {
        assert_eq!(rt; name.parse::<Fixed>(), Ok(fixed));
    }
}

#[test]
fn names_of_no_profile(rt: HostRuntime) -> Result<(), Fail> {
    for name in ["", "CSK", "csk ", "cs", "gmkk", "sheet:csk"] {
        assert_eq!(rt; name.parse::<Fixed>(), Err(UnknownProfile));
    }
    assert_eq!(rt;
        format!(in rt.alloc(); "{UnknownProfile}")?.as_str(),
        "no fixed profile has this name"
    );
    Ok(())
}

#[test]
fn a_message_of_each_profile(rt: HostRuntime) -> Result<(), Fail> {
    let heap = rt.alloc();
    let csk = whole(heap, 2, 0)?;
    let pck = whole(heap, 1, 1)?;
    let gmk = whole(heap, 0, 4)?;
    assert_eq!(rt; under(&csk, &Fixed::Csk), told(11, 10, 89));
    assert_eq!(rt; under(&pck, &Fixed::Pck), told(11, 16, 95));
    assert_eq!(rt; under(&gmk, &Fixed::Gmk), told(11, 34, 113));
    let purpose = Err(Refusal::FieldNotTaken { byte: 4, field: 3 });
    assert_eq!(rt; under(&csk, &Fixed::Pck), purpose);
    assert_eq!(rt; under(&pck, &Fixed::Gmk), purpose);
    assert_eq!(rt; under(&gmk, &Fixed::Csk), purpose);
    let sessions = Err(Refusal::FieldNotTaken { byte: 8, field: 4 });
    assert_eq!(rt; under(&whole(heap, 2, 2)?, &Fixed::Csk), sessions);
    assert_eq!(rt; under(&whole(heap, 1, 2)?, &Fixed::Pck), sessions);
    // a group key may come with every #CS that is lawful
    let lawful = Err(Refusal::SessionMap(8));
    assert_eq!(rt; under(&whole(heap, 0, 5)?, &Fixed::Gmk), lawful);
    Ok(())
}

#[test]
fn rows_are_filled_last(rt: HostRuntime) -> Result<(), Fail> {
    let mut message = whole(rt.alloc(), 2, 0)?;
    let mut rows = [OLD; 25];
    assert_eq!(rt;
        read(&message, &mut rows, &Fixed::Csk, &KEY),
        told(11, 10, 89)
    );
    let sign = Row {
        code: 4,
        slot: 11,
        start: 87,
        length: 10,
    };
    assert_eq!(rt; rows[10], sign);
    assert_eq!(rt; rows[11], Row::BLANK);
    assert_eq!(rt; rows[23], Row::BLANK);
    assert_eq!(rt; rows[24], OLD);
    // a signature of another key
    if let Some(last) = message.last_mut() {
        *last = last.wrapping_add(1);
    }
    let mut rows = [OLD; 24];
    assert_eq!(rt;
        read(&message, &mut rows, &Fixed::Csk, &KEY),
        Err(Refusal::NotPassed(89))
    );
    assert_eq!(rt; rows, [OLD; 24]);
    Ok(())
}

// By its IDR of role 1, which stands at 38.
#[test]
fn signers_that_are_trusted(rt: HostRuntime) -> Result<(), Fail> {
    let message = whole(rt.alloc(), 2, 0)?;
    let mut list = TrustList::new(KEY);
    for (signer, answer) in [
        (&b"b"[..], Err(Refusal::NotPassed(89))),
        (SIGNER, told(11, 10, 89)),
        (SIGNER, told(11, 10, 89)),
    ] {
        assert_eq!(rt; list.enter(signer), Ok(()));
        let mut rows = [OLD; 25];
        assert_eq!(rt; read(&message, &mut rows, &Fixed::Csk, &list), answer);
    }
    Ok(())
}

fn refused<P: Profile>(rt: &impl Abort, message: &[u8], profile: &P, refusal: Refusal) {
    let mut rows = [OLD; 25];
    assert_eq!(rt; read(message, &mut rows, profile, &KEY), Err(refusal));
    assert_eq!(rt; rows, [OLD; 25]);
}

// By too few rows, by walk and by the profile.
#[test]
fn rows_stay_when_a_message_is_refused(rt: HostRuntime) -> Result<(), Fail> {
    let heap = rt.alloc();
    let message = whole(heap, 2, 0)?;
    let mut few = [OLD; 23];
    assert_eq!(rt;
        read(&message, &mut few, &Fixed::Csk, &KEY),
        Err(Refusal::FewRows)
    );
    assert_eq!(rt; few, [OLD; 23]);
    let mut cut = whole(heap, 2, 0)?;
    cut.truncate(96);
    refused(&rt, &cut, &Fixed::Csk, Refusal::PayloadCut(87));
    let purpose = Refusal::FieldNotTaken { byte: 4, field: 3 };
    refused(&rt, &message, &Fixed::Pck, purpose);
    let falls = Sheet::parse(b"slot least most rank\n1 1 1 1\n2 1 1 0\n")?;
    refused(
        &rt,
        &message,
        &falls,
        Refusal::RankFalls { start: 20, slot: 2 },
    );
    let above = Sheet::parse(b"slot least most rank\n1 1 1 0\n")?;
    refused(
        &rt,
        &message,
        &above,
        Refusal::AboveMost { start: 20, slot: 2 },
    );
    let below = Sheet::parse(
        b"slot least most rank\n1 1 1 0\n2 2 2 0\n3 1 1 0\n4 1 1 0\n5 1 1 0\n6 1 1 0\n7 1 1 0\n8 1 1 0\n9 1 1 0\n10 1 1 0\n11 1 1 0\n",
    )?;
    refused(
        &rt,
        &message,
        &below,
        Refusal::BelowLeast {
            length: 97,
            slot: 2,
        },
    );
    Ok(())
}

// A byte of a message that is spoiled, its value, and the field that is then refused there.
const SPOILS: [(usize, u8, u8); 14] = [
    (3, 0x81, 1),
    (3, 0, 2),
    (4, 0x30, 3),
    (40, 0, 6),
    (46, 2, 6),
    (52, 0, 6),
    (58, 2, 6),
    (64, 1, 7),
    (68, 0, 8),
    (69, 1, 9),
    (78, 2, 8),
    (79, 3, 9),
    (87, 0x10, 10),
    (87, 0x30, 10),
];

fn spoiled<P: Profile>(
    rt: &impl Abort,
    heap: Global,
    whole: &[u8],
    profile: &P,
) -> Result<(), Fail> {
    assert_eq!(rt; whole.len(), 97);
    for (byte, value, field) in SPOILS {
        let mut message = Vec::from_slice(heap, whole)?;
        if let Some(at) = message.get_mut(byte) {
            *at = value;
        }
        let refusal = Refusal::FieldNotTaken { byte, field };
        assert_eq!(rt; under(&message, profile), Err(refusal));
    }
    Ok(())
}

#[test]
fn each_field_spoiled(rt: HostRuntime) -> Result<(), Fail> {
    let heap = rt.alloc();
    spoiled(&rt, heap, &whole(heap, 2, 0)?, &Fixed::Csk)?;
    spoiled(&rt, heap, &whole(heap, 1, 0)?, &Fixed::Pck)?;
    spoiled(&rt, heap, &whole(heap, 0, 0)?, &Fixed::Gmk)
}

// RAND len can't be spoiled by its byte alone, since it is also the length of what follows.
#[test]
fn short_rands(rt: HostRuntime) -> Result<(), Fail> {
    let heap = rt.alloc();
    let field = Err(Refusal::FieldNotTaken { byte: 11, field: 5 });
    for (purpose, fixed) in [(2, Fixed::Csk), (1, Fixed::Pck), (0, Fixed::Gmk)] {
        let mut message = Unsigned::new(heap, purpose, 0)?;
        message.add(11, &[15, 0, 0, 0, 0, 0, 0, 0, 0, 0, 0, 0, 0, 0, 0, 0])?;
        assert_eq!(rt; under(&message.sign()?, &fixed), field);
    }
    Ok(())
}

fn identities(heap: Global, first: u8, second: u8) -> Result<Vec<u8>, AllocError> {
    let mut message = Unsigned::new(heap, 0, 0)?;
    message.add(14, &[first, 1, 0, 1, b'a'])?;
    message.add(14, &[second, 1, 0, 1, b'a'])?;
    message.sign()
}

#[test]
fn roles_are_slots_of_their_own(rt: HostRuntime) -> Result<(), Fail> {
    let heap = rt.alloc();
    let sheet = Sheet::parse(b"slot least most rank\n3 1 1 0\n4 1 1 0\n11 1 1 0\n")?;
    for (first, second, answer) in [
        (1, 2, told(3, 10, 24)),
        (2, 1, told(3, 10, 24)),
        (1, 1, Err(Refusal::AboveMost { start: 16, slot: 3 })),
        (1, 6, Err(Refusal::AboveMost { start: 16, slot: 5 })),
        (
            1,
            9,
            Err(Refusal::AboveMost {
                start: 16,
                slot: 12,
            }),
        ),
    ] {
        assert_eq!(rt; under(&identities(heap, first, second)?, &sheet), answer);
    }
    Ok(())
}

#[test]
fn ranks(rt: HostRuntime) -> Result<(), Fail> {
    let heap = rt.alloc();
    let sheet = Sheet::parse(b"slot least most rank\n3 1 1 2\n4 0 1 1\n11 1 1 2\n")?;
    for (first, second, answer) in [
        (2, 1, told(3, 10, 24)),
        (1, 2, Err(Refusal::RankFalls { start: 16, slot: 4 })),
        // a slot without a line has rank 0, and a rank that falls is told before a count
        (1, 6, Err(Refusal::RankFalls { start: 16, slot: 5 })),
    ] {
        assert_eq!(rt; under(&identities(heap, first, second)?, &sheet), answer);
    }
    Ok(())
}

// Of a payload its field, then its rank, then its count; then the next payload, and at the end the
// least counts and the verifier.
#[test]
fn the_first_refusal_is_told(rt: HostRuntime) -> Result<(), Fail> {
    let heap = rt.alloc();
    let sheet = Sheet::parse(
        b"slot least most rank\n1 1 1 0\n3 0 1 2\n4 0 1 1\n5 0 1 2\n11 1 1 2\n",
    )?;
    for (role, id_type, refusal) in [
        (2, 0, Refusal::FieldNotTaken { byte: 18, field: 6 }),
        (2, 1, Refusal::RankFalls { start: 16, slot: 4 }),
        (1, 1, Refusal::AboveMost { start: 16, slot: 3 }),
        (6, 1, Refusal::FieldNotTaken { byte: 24, field: 6 }),
    ] {
        let mut message = Unsigned::new(heap, 0, 0)?;
        message.add(14, &[1, 1, 0, 1, b'a'])?;
        message.add(14, &[role, id_type, 0, 1, b'a'])?;
        message.add(14, &[2, 0, 0, 1, b'a'])?;
        assert_eq!(rt; under(&message.sign()?, &sheet), Err(refusal));
    }
    let mut rows = [OLD; 25];
    assert_eq!(rt;
        read(
            &identities(heap, 1, 6)?,
            &mut rows,
            &sheet,
            &KeyTag { key: 0 }
        ),
        Err(Refusal::BelowLeast {
            length: 32,
            slot: 1,
        })
    );
    Ok(())
}

#[test]
fn least_counts(rt: HostRuntime) -> Result<(), Fail> {
    let heap = rt.alloc();
    let message = identities(heap, 1, 2)?;
    let missing = Err(Refusal::BelowLeast {
        length: 32,
        slot: 1,
    });
    assert_eq!(rt; under(&message, &Fixed::Gmk), missing);
    let sheet = Sheet::parse(b"slot least most rank\n3 2 2 0\n4 2 2 0\n11 1 1 0\n")?;
    // the lowest slot is the one told
    assert_eq!(rt;
        under(&message, &sheet),
        Err(Refusal::BelowLeast {
            length: 32,
            slot: 3,
        })
    );
    Ok(())
}

#[test]
fn any_order_under_a_fixed_profile(rt: HostRuntime) -> Result<(), Fail> {
    let mut message = Unsigned::new(rt.alloc(), 0, 0)?;
    message.add(21, &[7, 0, 0])?;
    message.add(26, &[1, 2, 0, 0])?;
    for role in [7, 6, 2, 1] {
        message.add(14, &[role, 1, 0, 1, b'a'])?;
    }
    message.add(
        11,
        &[16, 0, 1, 2, 3, 4, 5, 6, 7, 8, 9, 10, 11, 12, 13, 14, 15],
    )?;
    message.add(5, &[0; 9])?;
    let message = message.sign()?;
    assert_eq!(rt; under(&message, &Fixed::Gmk), told(9, 10, 73));
    Ok(())
}
