// Drafts: lists of calls, with the answer to each.
use second::draft::{Answer, PlainDraft};
use second::{Fault, Rules, Sheet, decode, judge};
use std::alloc::{AllocError, Global};
use std::process::Abort;
use std::test::Fail;

/// A call on a draft. A head gives #CS, map type and map info; its byte 3 is 1 and its purpose 15.
#[derive(Clone, Copy, Debug)]
enum Call {
    Head(u8, u8, &'static [u8]),
    Add(usize, u8, &'static [u8]),
    Replace(usize, u8, &'static [u8]),
    Remove(usize),
    Close(u8, usize),
    Sign(&'static [u8]),
    Withdraw,
    Release,
}

impl Call {
    fn made(self, draft: &mut PlainDraft, rules: &Rules) -> Result<Answer, AllocError> {
        match self {
            Call::Head(cs, map_type, info) => draft.head(1, 0xf000_0001, cs, map_type, info),
            Call::Add(position, code, body) => draft.add(position, code, body),
            Call::Replace(position, code, body) => draft.replace(position, code, body),
            Call::Remove(position) => draft.remove(position),
            Call::Close(sign_type, length) => draft.close(rules, sign_type, length),
            Call::Sign(signature) => draft.sign(signature),
            Call::Withdraw => draft.withdraw(),
            Call::Release => draft.release(),
        }
    }
}

/// Makes the calls on a draft in a buffer like this one, under a sheet that wants T, RAND and SIGN,
/// and compares the answers.
fn drafted(
    rt: &impl Abort,
    alloc: Global,
    buffer: &[u8],
    calls: &[(Call, Answer)],
) -> Result<PlainDraft, AllocError> {
    let rules = rules();
    let mut draft = PlainDraft::begin(alloc, buffer)?;
    for (call, expected) in calls {
        let answer = call.made(&mut draft, &rules)?;
        assert_eq!(rt; answer, *expected, "{call:?}");
    }
    Ok(draft)
}

fn rules() -> Rules {
    match Sheet::parse(b"slot least most rank\n1 1 1 0\n2 1 1 1\n11 1 1 9\n") {
        Ok(sheet) => Rules::Sheet(sheet),
        Err(_) => Rules::Csk,
    }
}

const fn refused(number: u8, place: usize, detail: u8) -> Answer {
    Answer::Refused(Fault {
        number,
        place,
        detail,
    })
}

const T: &[u8] = &[0, 0, 0, 0, 0, 0, 0, 0, 7];

const RAND: &[u8] = &[16, 1, 2, 3, 4, 5, 6, 7, 8, 9, 10, 11, 12, 13, 14, 15, 16];

#[test]
fn drafts_a_message(rt: HostRuntime) -> Result<(), Fail> {
    let calls = [
        (Call::Head(0, 1, &[]), Answer::Done),
        (Call::Add(0, 11, RAND), Answer::Done),
        (Call::Add(0, 5, T), Answer::Done),
        (Call::Close(2, 3), Answer::Done),
        (Call::Add(0, 5, T), Answer::Misplaced),
        (Call::Sign(&[1]), refused(25, 0, 0)),
        (Call::Sign(&[1, 2, 3]), Answer::Length(43)),
        (Call::Release, Answer::Length(43)),
        (Call::Withdraw, Answer::Misplaced),
    ];
    let draft = drafted(&rt, rt.alloc(), &[0xee; 64], &calls)?;
    let read = decode(rt.alloc(), draft.encoding(), 24)?;
    assert_eq!(rt; judge(&read, &rules()), Ok(()));
    assert_eq!(rt; read.message.signature.as_slice(), [1, 2, 3].as_slice());
    assert_eq!(rt; draft.buffer().len(), 64);
    Ok(())
}

#[test]
fn refuses_edits(rt: HostRuntime) -> Result<(), Fail> {
    let calls = [
        (Call::Add(0, 11, &[0]), refused(19, 0, 0)),
        (Call::Remove(0), refused(19, 0, 0)),
        (Call::Head(1, 1, &[]), refused(6, 0, 0)),
        (Call::Head(1, 2, &[0, 0, 0]), refused(7, 0, 0)),
        (Call::Head(1, 2, &[0, 1, 0, 0, 0, 0]), refused(8, 0, 0)),
        (Call::Head(0, 1, &[0]), refused(21, 0, 0)),
        (Call::Head(0, 1, &[]), Answer::Done),
        (Call::Add(1, 11, &[0]), refused(20, 0, 0)),
        (Call::Add(0, 4, &[0x20, 1, 1]), refused(9, 0, 0)),
        (Call::Add(0, 11, &[]), refused(11, 0, 0)),
        (
            Call::Add(0, 5, &[1, 0, 0, 0, 0, 0, 0, 0, 0]),
            refused(12, 0, 0),
        ),
        (Call::Add(0, 11, &[0, 0]), refused(13, 0, 0)),
        (Call::Add(0, 11, RAND), refused(23, 0, 0)),
        (Call::Add(0, 11, &[1, 2]), Answer::Done),
        (Call::Replace(1, 11, &[0]), refused(20, 0, 0)),
        (Call::Replace(0, 26, &[1, 2, 0, 0]), Answer::Done),
        (Call::Sign(&[1]), Answer::Misplaced),
        (Call::Release, Answer::Misplaced),
    ];
    let draft = drafted(&rt, rt.alloc(), &[0xee; 20], &calls)?;
    let buffer = [
        1, 26, 26, 1, 0xf0, 0, 0, 1, 0, 1, 0, 1, 2, 0, 0, 0, 0, 0, 0, 0,
    ];
    assert_eq!(rt; draft.buffer(), buffer.as_slice());
    assert_eq!(rt; draft.encoding(), &buffer[..15]);
    Ok(())
}

/// What is wrong at a close is told by sign, and no SIGN stands then.
#[test]
fn carries_faults(rt: HostRuntime) -> Result<(), Fail> {
    let calls = [
        (Call::Close(2, 8), Answer::Done),
        (Call::Sign(&[]), refused(19, 0, 0)),
        (Call::Withdraw, Answer::Done),
        (Call::Head(0, 1, &[]), Answer::Done),
        (Call::Close(16, 8), Answer::Done),
        (Call::Sign(&[]), refused(24, 0, 0)),
        (Call::Withdraw, Answer::Done),
        (Call::Close(2, 90), Answer::Done),
        (Call::Sign(&[]), refused(23, 0, 0)),
        (Call::Withdraw, Answer::Done),
        (Call::Close(2, 8), Answer::Done),
        (Call::Sign(&[]), refused(17, 20, 1)),
        (Call::Withdraw, Answer::Done),
        (Call::Add(0, 11, RAND), Answer::Done),
        (Call::Add(1, 5, T), Answer::Done),
        (Call::Close(2, 8), Answer::Done),
        (Call::Sign(&[]), refused(15, 28, 1)),
        (Call::Withdraw, Answer::Done),
        (Call::Replace(1, 11, RAND), Answer::Done),
        (Call::Close(2, 8), Answer::Done),
        (Call::Sign(&[]), refused(16, 28, 2)),
        (Call::Release, Answer::Length(0)),
    ];
    let draft = drafted(&rt, rt.alloc(), &[0xee; 100], &calls)?;
    assert_eq!(rt; draft.encoding().len(), 46);
    assert_eq!(rt; draft.span().len(), 0);
    Ok(())
}
