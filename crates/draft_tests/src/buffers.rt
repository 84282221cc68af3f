// Whole buffers: of each length, filled to the last byte, and after edits that take more or less
// room.
use crate::stations::{HEADER, RAND, head, holds, set};
use drafter::begin;
use plain::Head;
use wire::Refusal;

// Sets a header in a buffer of N bytes, each 7 at first.
fn headed<const N: usize>() -> (Result<(), Refusal>, [u8; N]) {
    let mut buffer = [7u8; N];
    let mut open = begin(&mut buffer);
    let answer = set(&mut open, &head());
    drop(open);
    (answer, buffer)
}

#[test]
fn buffers_of_each_length(rt: HostRuntime) {
    let (answer, buffer) = headed::<0>();
    assert_eq!(rt; answer, Err(Refusal::NoRoom));
    assert!(rt; buffer.is_empty());
    let (answer, buffer) = headed::<9>();
    assert_eq!(rt; answer, Err(Refusal::NoRoom));
    assert_eq!(rt; buffer, [0; 9]);
    let (answer, buffer) = headed::<10>();
    assert_eq!(rt; answer, Ok(()));
    assert_eq!(rt; buffer, HEADER);
    let (answer, buffer) = headed::<8192>();
    assert_eq!(rt; answer, Ok(()));
    assert!(rt; holds(&buffer, &HEADER, 0));
    let (answer, buffer) = headed::<9000>();
    assert_eq!(rt; answer, Ok(()));
    assert!(rt; holds(&buffer, &HEADER, 7));
}

// Fills a buffer of N bytes, each 7 at first, with a header and an IDR of 8,182 bytes. Then one of
// two bytes, which has room only if the first had none.
fn filled<const N: usize>() -> ([Result<(), Refusal>; 3], [u8; N]) {
    let mut body = [9u8; 8181];
    body[..4].copy_from_slice(&[1, 1, 0x1f, 0xf1]);
    let mut buffer = [7u8; N];
    let mut open = begin(&mut buffer);
    let answers = [
        set(&mut open, &head()),
        open.add(0, 14, &body),
        open.add(0, 11, &[0]),
    ];
    drop(open);
    (answers, buffer)
}

#[test]
fn a_draft_filled_to_the_last_byte(rt: HostRuntime) {
    let mut held = [9u8; 8192];
    held[..15].copy_from_slice(&[1, 26, 14, 1, 32, 0, 0, 1, 0, 1, 0, 1, 1, 0x1f, 0xf1]);
    let answers = [Ok(()), Ok(()), Err(Refusal::NoRoom)];
    let (told, buffer) = filled::<8192>();
    assert_eq!(rt; told, answers);
    assert_eq!(rt; buffer, held);
    let (told, buffer) = filled::<9000>();
    assert_eq!(rt; told, answers);
    assert!(rt; holds(&buffer, &held, 7));
    let (told, buffer) = filled::<8191>();
    assert_eq!(rt; told, [Ok(()), Err(Refusal::NoRoom), Ok(())]);
    assert!(rt; holds(&buffer, &[1, 26, 11, 1, 32, 0, 0, 1, 0, 1, 0, 0], 0));
}

// A header with a session, whose map info has six bytes.
fn longer() -> Head<'static> {
    Head {
        cs: 1,
        map_type: 2,
        map_info: &[8, 0, 0, 0, 0, 0],
        ..head()
    }
}

#[test]
fn headers_over_payloads(rt: HostRuntime) {
    let mut buffer = [7u8; 21];
    let mut open = begin(&mut buffer);
    assert_eq!(rt; set(&mut open, &head()), Ok(()));
    assert_eq!(rt; open.add(0, 11, &[1, 9]), Ok(()));
    assert_eq!(rt; open.add(1, 11, &[0]), Ok(()));
    assert_eq!(rt; set(&mut open, &longer()), Ok(()));
    drop(open);
    assert_eq!(rt;
        buffer,
        [
            1, 26, 11, 1, 32, 0, 0, 1, 1, 2, 8, 0, 0, 0, 0, 0, 11, 1, 9, 0, 0
        ]
    );
    let mut open = begin(&mut buffer);
    assert_eq!(rt; set(&mut open, &longer()), Ok(()));
    assert_eq!(rt; open.add(0, 11, &[1, 9]), Ok(()));
    assert_eq!(rt; open.add(1, 11, &[0]), Ok(()));
    assert_eq!(rt; set(&mut open, &Head { byte3: 2, ..head() }), Ok(()));
    drop(open);
    assert_eq!(rt;
        buffer,
        [
            1, 26, 11, 2, 32, 0, 0, 1, 0, 1, 11, 1, 9, 0, 0, 0, 0, 0, 0, 0, 0
        ]
    );
}

#[test]
fn longer_and_shorter_bodies(rt: HostRuntime) {
    let mut buffer = [7u8; 19];
    let mut open = begin(&mut buffer);
    assert_eq!(rt; set(&mut open, &head()), Ok(()));
    assert_eq!(rt; open.add(0, 11, &[1, 9]), Ok(()));
    assert_eq!(rt; open.add(1, 14, &[1, 1, 0, 0]), Ok(()));
    assert_eq!(rt; open.replace(0, 11, &[2, 8, 9]), Ok(()));
    drop(open);
    assert_eq!(rt;
        buffer,
        [1, 26, 11, 1, 32, 0, 0, 1, 0, 1, 14, 2, 8, 9, 0, 1, 1, 0, 0]
    );
    let mut open = begin(&mut buffer);
    assert_eq!(rt; set(&mut open, &head()), Ok(()));
    assert_eq!(rt; open.add(0, 11, &[2, 8, 9]), Ok(()));
    assert_eq!(rt; open.add(1, 14, &[1, 1, 0, 0]), Ok(()));
    assert_eq!(rt; open.replace(0, 11, &[0]), Ok(()));
    assert_eq!(rt; open.replace(2, 11, &[0]), Err(Refusal::NoPosition));
    drop(open);
    assert_eq!(rt;
        buffer,
        [1, 26, 11, 1, 32, 0, 0, 1, 0, 1, 14, 0, 0, 1, 1, 0, 0, 0, 0]
    );
}

#[test]
fn what_is_added_and_removed_leaves_no_trace(rt: HostRuntime) {
    let mut buffer = [7u8; 28];
    let mut open = begin(&mut buffer);
    assert_eq!(rt; set(&mut open, &head()), Ok(()));
    assert_eq!(rt; open.add(0, 11, &RAND[..16]), Err(Refusal::PayloadCut(0)));
    assert_eq!(rt; open.add(0, 11, &RAND), Ok(()));
    assert_eq!(rt; open.bytes().len(), 28);
    assert_eq!(rt; open.remove(0), Ok(()));
    drop(open);
    assert!(rt; holds(&buffer, &HEADER, 0));
}
