use crate::build::{header, many, one, signed, with_sessions};
use std::test::Fail;
use walk::{lookup, time, walk};
use wire::{Kind, Refusal, Row, Slot, Walked};

// A row that no walk writes.
pub(crate) const OLD: Row = Row {
    code: 9,
    slot: 9,
    start: 9,
    length: 9,
};

// The row of a SIGN whose signature is one byte.
pub(crate) fn sign_at(start: u32) -> Row {
    Row {
        code: Kind::Sign.code(),
        slot: Slot::Sign.number(),
        start,
        length: 3,
    }
}

#[test]
fn the_longest_message(rt: HostRuntime) -> Result<(), Fail> {
    let mut rows = [OLD; 24];
    let long = vec![in rt.alloc(); 0u8; 8193]?;
    assert_eq!(rt; walk(&long, &mut rows), Err(Refusal::TooLong));
    let fits = vec![in rt.alloc(); 0u8; 8192]?;
    assert_eq!(rt; walk(&fits, &mut rows), Err(Refusal::Version));
    assert_eq!(rt; rows[0], OLD);
    Ok(())
}

#[test]
fn few_rows_come_before_all_else(rt: HostRuntime) {
    let mut rows = [OLD; 23];
    assert_eq!(rt; walk(&[], &mut rows), Err(Refusal::FewRows));
    assert_eq!(rt; rows[22], OLD);
}

#[test]
fn counts_of_payloads(rt: HostRuntime) -> Result<(), Fail> {
    let mut rows = [OLD; 25];
    let most = many(rt.alloc(), 23)?;
    let walked = Walked {
        count: 24,
        header: 10,
        span: 58,
    };
    assert_eq!(rt; walk(&most, &mut rows), Ok(walked));
    assert_eq!(rt; rows[23], sign_at(56));
    assert_eq!(rt; rows[24], OLD);
    let less = many(rt.alloc(), 22)?;
    assert_eq!(rt;
        walk(&less, &mut rows),
        Ok(Walked {
            count: 23,
            header: 10,
            span: 56,
        })
    );
    assert_eq!(rt; rows[23], Row::BLANK);
    let more = many(rt.alloc(), 24)?;
    assert_eq!(rt; walk(&more, &mut rows), Err(Refusal::ExtraPayload(58)));
    assert_eq!(rt; rows[22], sign_at(54));
    Ok(())
}

// Each body at its shortest, with its slot.
const BODIES: [(u8, u8, &[u8]); 15] = [
    (5, 1, &[0, 0, 0, 0, 0, 0, 0, 0, 1]),
    (11, 2, &[0]),
    (14, 3, &[1, 1, 0, 0]),
    (14, 4, &[2, 1, 0, 0]),
    (14, 5, &[6, 1, 0, 0]),
    (14, 6, &[7, 1, 0, 0]),
    (14, 12, &[3, 1, 0, 0]),
    (10, 7, &[0, 0, 0, 0]),
    (10, 7, &[0, 0, 0, 2, 9, 0]),
    (26, 8, &[1, 2, 0, 0]),
    (21, 9, &[6, 0, 5, 77, 1, 2, 0, 0]),
    (21, 10, &[7, 0, 0]),
    (21, 12, &[8, 0, 0]),
    (14, 3, &[1, 1, 0, 2, 97, 98]),
    (11, 2, &[2, 8, 9]),
];

#[test]
fn bodies_whole_and_cut(rt: HostRuntime) -> Result<(), Fail> {
    for (code, slot, body) in BODIES {
        let mut rows = [OLD; 24];
        let whole = signed(rt.alloc(), code, body)?;
        let length = u32::try_from(body.len())?.saturating_add(1);
        let start = length.saturating_add(10);
        assert_eq!(rt;
            walk(&whole, &mut rows),
            Ok(Walked {
                count: 2,
                header: 10,
                span: start.saturating_add(2) as usize,
            })
        );
        assert_eq!(rt;
            rows[0],
            Row {
                code,
                slot,
                start: 10,
                length,
            }
        );
        assert_eq!(rt; rows[1], sign_at(start));
        assert_eq!(rt; rows[2], Row::BLANK);
        let mut cut = one(rt.alloc(), code, body)?;
        let _ = cut.pop();
        assert_eq!(rt; walk(&cut, &mut rows), Err(Refusal::PayloadCut(10)));
    }
    Ok(())
}

// Bodies that break the rule inside them.
const BROKEN: [(u8, &[u8]); 6] = [
    (5, &[1, 0, 0, 0, 0, 0, 0, 0, 1]),
    (10, &[0, 0, 0, 1, 9]),
    (10, &[0, 0, 0, 3, 9, 2, 1]),
    (21, &[6, 0, 0]),
    (21, &[6, 0, 5, 77, 1, 2, 0, 1]),
    (21, &[6, 0, 6, 77, 1, 2, 0, 0, 0]),
];

#[test]
fn rules_inside(rt: HostRuntime) -> Result<(), Fail> {
    for (code, body) in BROKEN {
        let mut rows = [OLD; 24];
        let bytes = signed(rt.alloc(), code, body)?;
        assert_eq!(rt; walk(&bytes, &mut rows), Err(Refusal::PayloadRule(10)));
        assert_eq!(rt; rows[0], OLD);
    }
    Ok(())
}

// Headers and codes that are refused, by byte and value.
const SPOILED: [(usize, u8, Refusal); 8] = [
    (0, 2, Refusal::Version),
    (1, 25, Refusal::DataType),
    (8, 1, Refusal::SessionMap(8)),
    (9, 0, Refusal::SessionMap(8)),
    (9, 3, Refusal::SessionMap(8)),
    (2, 0, Refusal::UnknownCode(2)),
    (2, 6, Refusal::UnknownCode(2)),
    (10, 0, Refusal::UnknownCode(10)),
];

#[test]
fn headers_and_codes(rt: HostRuntime) -> Result<(), Fail> {
    for (at, value, refusal) in SPOILED {
        let mut rows = [OLD; 24];
        let mut bytes = signed(rt.alloc(), 11, &[0])?;
        if let Some(byte) = bytes.get_mut(at) {
            *byte = value;
        }
        assert_eq!(rt; walk(&bytes, &mut rows), Err(refusal));
    }
    Ok(())
}

// Sessions: how many, their bytes, and the refusal or where the header ends.
const SESSIONS: [(u8, &[u8], Result<usize, Refusal>); 14] = [
    (1, &[1, 0, 0, 0, 0, 0], Ok(16)),
    (1, &[1, 0, 2, 7, 8, 0, 0, 1, 9], Ok(19)),
    (1, &[1, 0, 0, 0, 4, 1, 2, 3, 4, 0], Ok(20)),
    (
        1,
        &[1, 0, 0x80, 0, 10, 1, 2, 3, 4, 5, 6, 7, 8, 9, 10, 0],
        Ok(26),
    ),
    (1, &[1, 0, 0x80, 0, 0, 0], Ok(16)),
    (
        4,
        &[
            1, 0, 0, 0, 0, 0, 2, 0, 0, 0, 0, 0, 3, 0, 0, 0, 0, 0, 4, 0, 0, 0, 0, 0,
        ],
        Ok(34),
    ),
    (1, &[1, 1, 0, 0, 0, 0], Err(Refusal::SessionRule(10))),
    (
        1,
        &[1, 0, 0, 0, 10, 1, 2, 3, 4, 5, 6, 7, 8, 9, 10, 0],
        Err(Refusal::SessionRule(10)),
    ),
    (
        1,
        &[1, 0, 0x80, 0, 4, 1, 2, 3, 4, 0],
        Err(Refusal::SessionRule(10)),
    ),
    (1, &[1, 0, 0, 0, 0, 4], Err(Refusal::SessionCut(10))),
    (1, &[1, 1, 0, 0, 0, 4], Err(Refusal::SessionCut(10))),
    (
        2,
        &[1, 0, 0, 0, 0, 0, 1, 1, 0, 0, 0, 0],
        Err(Refusal::SessionRule(16)),
    ),
    (2, &[1, 0, 0, 0, 0, 0], Err(Refusal::SessionCut(16))),
    (5, &[1, 0, 0, 0, 0, 0], Err(Refusal::SessionMap(8))),
];

#[test]
fn sessions(rt: HostRuntime) -> Result<(), Fail> {
    for (count, bytes, expected) in SESSIONS {
        let mut rows = [OLD; 24];
        let message = with_sessions(rt.alloc(), count, bytes)?;
        assert_eq!(rt;
            walk(&message, &mut rows).map(|walked| walked.header),
            expected
        );
    }
    Ok(())
}

#[test]
fn bytes_behind_sign(rt: HostRuntime) -> Result<(), Fail> {
    let mut rows = [OLD; 24];
    let mut bytes = header(rt.alloc(), 4)?;
    assert_eq!(rt; walk(&bytes, &mut rows), Err(Refusal::PayloadCut(10)));
    bytes.extend_from_slice(&[0x20, 1, 0xaa, 0])?;
    assert_eq!(rt; walk(&bytes, &mut rows), Err(Refusal::BytesLeft(13)));
    assert_eq!(rt; rows[0], OLD);
    Ok(())
}

// A row that marks off a part, whatever its payload.
fn row(start: u32, length: u32) -> Row {
    Row {
        start,
        length,
        ..Row::BLANK
    }
}

#[test]
fn where_rows_lie(rt: HostRuntime) {
    assert_eq!(rt; Row::BLANK.range(), 0..0);
    assert_eq!(rt; row(1, 3).range(), 1..4);
    assert_eq!(rt;
        row(u32::MAX, u32::MAX).range(),
        4_294_967_295..8_589_934_590
    );
}

#[test]
fn parts_of_a_message(rt: HostRuntime) -> Result<(), Fail> {
    let message = [1, 2, 3, 4, 5];
    let parts: [(u32, u32, &[u8]); 3] = [(1, 3, &[2, 3, 4]), (5, 0, &[]), (0, 5, &message)];
    for (start, length, bytes) in parts {
        let part = lookup(&message, &row(start, length))?;
        assert_eq!(rt; part.bytes, bytes);
        assert_eq!(rt; part.place, start as usize);
    }
    Ok(())
}

#[test]
fn parts_outside_a_message(rt: HostRuntime) {
    let message = [1, 2, 3, 4, 5];
    for (start, length) in [(1, 5), (6, 0), (2, u32::MAX), (u32::MAX, 1)] {
        let part = lookup(&message, &row(start, length));
        assert_eq!(rt; part.err(), Some(Refusal::RowOutside));
    }
}

#[test]
fn times(rt: HostRuntime) {
    let t = [4, 0, 0, 0, 0, 0, 0xe9, 0, 0x12, 0x34];
    assert_eq!(rt; time(&t), Ok(0xe900_1234));
    assert_eq!(rt;
        time(&[4, 0, 255, 255, 255, 255, 255, 255, 255, 255]),
        Ok(u64::MAX)
    );
    assert_eq!(rt; time(&t[0..9]), Err(Refusal::PayloadCut(0)));
    assert_eq!(rt;
        time(&[4, 1, 0, 0, 0, 0, 0, 0, 0, 0]),
        Err(Refusal::PayloadRule(0))
    );
    assert_eq!(rt;
        time(&[4, 1, 0, 0, 0, 0, 0, 0, 0, 0, 0]),
        Err(Refusal::PayloadRule(0))
    );
    assert_eq!(rt;
        time(&[4, 0, 0, 0, 0, 0, 0, 0, 0, 0, 0]),
        Err(Refusal::BytesLeft(0))
    );
}
