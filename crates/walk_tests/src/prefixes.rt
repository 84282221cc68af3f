// Messages at the front of longer bytes, and tables of a caller's own.
use crate::build::{many, signed};
use crate::tests::{OLD, sign_at};
use std::test::Fail;
use walk::{WalkedPrefix, first_in_slot, walk_prefix, walk_table};
use wire::{Refusal, Row, Slot, Walked, bytes_at, bytes_from};

// A RAND of one byte and SIGN: 16 bytes, of which the last is the signature.
const RAND: [u8; 2] = [1, 7];

const WALKED: Walked = Walked {
    count: 2,
    header: 10,
    span: 15,
};

#[test]
fn what_follows_a_message(rt: HostRuntime) -> Result<(), Fail> {
    let mut bytes = signed(rt.alloc(), 11, &RAND)?;
    for after in [&[][..], &[0], &[1, 26, 4]] {
        bytes.truncate(16);
        bytes.extend_from_slice(after)?;
        let mut table = [OLD; 24];
        let told = WalkedPrefix {
            walked: WALKED,
            end: 16,
        };
        assert_eq!(rt; walk_prefix(&bytes, &mut table), Ok(told));
        assert_eq!(rt; table[1], sign_at(13));
        assert_eq!(rt; table[2], OLD);
    }
    Ok(())
}

// A message that lies in 8192 bytes is found in more; one that runs past them is cut there.
#[test]
fn the_window(rt: HostRuntime) -> Result<(), Fail> {
    for (length, end) in [
        (8174_u16, Ok(8191)),
        (8175, Ok(8192)),
        (8176, Err(Refusal::PayloadCut(8190))),
    ] {
        let [high, low] = length.to_be_bytes();
        let mut body = Vec::from_slice(rt.alloc(), &[9, high, low])?;
        for _i in 0..length {
            body.push(0)?;
        }
        let mut bytes = signed(rt.alloc(), 21, &body)?;
        bytes.extend_from_slice(&[0; 100])?;
        let mut table = [Row::BLANK; 24];
        let told = walk_prefix(&bytes, &mut table).map(|prefix| prefix.end);
        assert_eq!(rt; told, end);
    }
    Ok(())
}

#[test]
fn no_message_at_the_front(rt: HostRuntime) -> Result<(), Fail> {
    let bytes = signed(rt.alloc(), 11, &RAND)?;
    for (part, refusal) in [
        (bytes_at(&bytes, 0, 15), Refusal::PayloadCut(13)),
        (bytes_from(&bytes, 1), Refusal::Version),
        (bytes_from(&bytes, 16), Refusal::TooShort(0)),
    ] {
        let mut table = [Row::BLANK; 24];
        assert_eq!(rt; walk_prefix(part, &mut table), Err(refusal));
    }
    Ok(())
}

#[test]
fn a_table_of_ones_own(rt: HostRuntime) -> Result<(), Fail> {
    let mut bytes = signed(rt.alloc(), 11, &RAND)?;
    let mut table = [OLD; 24];
    assert_eq!(rt; walk_table(&bytes, &mut table), Ok(WALKED));
    assert_eq!(rt; table[1], sign_at(13));
    assert_eq!(rt; table[2], OLD);
    bytes.push(0)?;
    assert_eq!(rt; walk_table(&bytes, &mut table), Err(Refusal::BytesLeft(16)));
    Ok(())
}

#[test]
fn first_rows(rt: HostRuntime) -> Result<(), Fail> {
    let bytes = many(rt.alloc(), 3)?;
    let mut table = [Row::BLANK; 24];
    let walked = walk_table(&bytes, &mut table)?;
    let rows = table.get(..walked.count).ok_or("more than 24 rows")?;
    for (slot, start) in [
        (Slot::Rand, Some(10)),
        (Slot::Sign, Some(16)),
        (Slot::T, None),
        (Slot::Other, None),
    ] {
        let found = first_in_slot(rows, slot).map(|row| row.start);
        assert_eq!(rt; found, start);
    }
    Ok(())
}

#[test]
fn bytes_by_their_places(rt: HostRuntime) {
    let bytes = [1, 2, 3, 4];
    for (at, from) in [(0, &[1, 2, 3, 4][..]), (3, &[4]), (4, &[]), (9, &[])] {
        assert_eq!(rt; bytes_from(&bytes, at), from);
    }
    for (at, length, part) in [
        (0, 2, &[1, 2][..]),
        (1, 3, &[2, 3, 4]),
        (1, 9, &[2, 3, 4]),
        (4, 1, &[]),
        (2, 0, &[]),
    ] {
        assert_eq!(rt; bytes_at(&bytes, at, length), part);
    }
}
