use crate::stations::{KEY, RAND, head, sheet};
use exchange::{Exchanged, Made, Station, exchange, redraft, run};
use plain::{Call, Reply};
use profile::Sheet;
use verifier::Pinned;
use wire::{Refusal, Row, Walked};

// The shortest message under the sheet: a header and SIGN.
const SHORTEST: [u8; 13] = [1, 26, 4, 1, 32, 0, 0, 1, 0, 1, 0x20, 1, 0xaa];

#[test]
fn as_many_calls_as_there_are_replies(rt: HostRuntime) {
    let calls: [Call<'_, Sheet>; 3] = [
        Call::Head(head()),
        Call::Add {
            position: 0,
            code: 11,
            body: &RAND,
        },
        Call::Withdraw,
    ];
    let mut buffer = [7u8; 30];
    let mut replies = [Reply::Released(7); 4];
    assert_eq!(rt;
        run(&mut buffer, &calls, &mut replies),
        Made {
            calls: 3,
            length: 28
        }
    );
    assert_eq!(rt; replies[1], Reply::Done);
    assert_eq!(rt; replies[2], Reply::Misplaced);
    assert_eq!(rt; replies[3], Reply::Released(7));
    assert_eq!(rt; buffer[29], 0);
    assert_eq!(rt;
        run(&mut buffer, &calls, &mut replies[0..1]),
        Made {
            calls: 1,
            length: 10
        }
    );
    assert_eq!(rt; replies[1], Reply::Done);
}

// A list may end while the draft is out: it is released, and the buffer keeps what it held.
#[test]
fn a_list_that_leaves_the_draft_out(rt: HostRuntime) {
    let sheet = sheet().expect(&rt, "a sheet");
    let calls = whole(&sheet);
    let mut buffer = [7u8; 13];
    let mut replies = [Reply::Misplaced; 2];
    assert_eq!(rt;
        run(&mut buffer, &calls, &mut replies),
        Made {
            calls: 2,
            length: 13
        }
    );
    assert_eq!(rt; buffer, [1, 26, 4, 1, 32, 0, 0, 1, 0, 1, 0x20, 1, 0]);
}

#[test]
fn a_message_is_drafted_again(rt: HostRuntime) {
    let sheet = sheet().expect(&rt, "a sheet");
    let pinned = Pinned {
        signer: b"",
        span: &SHORTEST[0..12],
        signature: &[0xaa],
    };
    let mut archive = [7u8; 14];
    assert_eq!(rt;
        redraft(&SHORTEST, &sheet, &pinned, &mut archive[0..12]),
        Err(Refusal::NoRoom)
    );
    assert_eq!(rt; archive[0], 7);
    assert_eq!(rt;
        redraft(&SHORTEST, &sheet, &KEY, &mut archive),
        Err(Refusal::NotPassed(12))
    );
    assert_eq!(rt; redraft(&SHORTEST, &sheet, &pinned, &mut archive), Ok(13));
    assert_eq!(rt; archive, [1, 26, 4, 1, 32, 0, 0, 1, 0, 1, 0x20, 1, 0xaa, 0]);
}

fn whole<'a>(sheet: &'a Sheet) -> [Call<'a, Sheet>; 3] {
    [
        Call::Head(head()),
        Call::Close {
            profile: sheet,
            sign_type: 2,
            length: 1,
        },
        Call::Sign(&[0xaa]),
    ]
}

// What is drafted and what comes in are two messages: the station and its archive see the second.
#[test]
fn the_whole_way_of_a_message(rt: HostRuntime) {
    let sheet = sheet().expect(&rt, "a sheet");
    let pinned = Pinned {
        signer: b"",
        span: &SHORTEST[0..12],
        signature: &[0xaa],
    };
    let calls: [Call<'_, Sheet>; 1] = [Call::Head(head())];
    let station = Station {
        profile: &sheet,
        verifier: &pinned,
    };
    let mut replies = [Reply::Misplaced; 3];
    let mut buffer = [7u8; 16];
    let mut rows = [Row::BLANK; 24];
    let mut archive = [7u8; 14];
    let done = exchange(
        &mut buffer,
        &calls,
        &mut replies,
        &SHORTEST,
        &station,
        &mut rows,
        &mut archive,
    );
    assert_eq!(rt; replies, [Reply::Done, Reply::Misplaced, Reply::Misplaced]);
    assert_eq!(rt;
        done.made,
        Made {
            calls: 1,
            length: 10
        }
    );
    assert_eq!(rt;
        done.read,
        Ok(Walked {
            count: 1,
            header: 10,
            span: 12
        })
    );
    assert_eq!(rt;
        rows[0],
        Row {
            code: 4,
            slot: 11,
            start: 10,
            length: 3
        }
    );
    assert_eq!(rt; done.again, Ok(13));
    assert_eq!(rt; archive, [1, 26, 4, 1, 32, 0, 0, 1, 0, 1, 0x20, 1, 0xaa, 0]);
}

// A byte of the signature is changed on the way: 18, where the signature starts.
#[test]
fn a_message_that_was_spoiled(rt: HostRuntime) {
    let sheet = sheet().expect(&rt, "a sheet");
    let pinned = Pinned {
        signer: b"",
        span: &SHORTEST[0..12],
        signature: &[0xaa],
    };
    let calls = whole(&sheet);
    let station = Station {
        profile: &sheet,
        verifier: &pinned,
    };
    let spoiled = [1, 26, 4, 1, 32, 0, 0, 1, 0, 1, 0x20, 1, 0xab];
    let mut replies = [Reply::Done; 3];
    let mut buffer = [7u8; 13];
    let mut rows = [Row::BLANK; 24];
    let mut archive = [7u8; 13];
    let Exchanged { made, read, again } = exchange(
        &mut buffer,
        &calls,
        &mut replies,
        &spoiled,
        &station,
        &mut rows,
        &mut archive,
    );
    assert_eq!(rt; replies[2], Reply::Delivered(13));
    assert_eq!(rt;
        made,
        Made {
            calls: 3,
            length: 13
        }
    );
    assert_eq!(rt; buffer, SHORTEST);
    assert_eq!(rt; read, Err(Refusal::NotPassed(12)));
    assert_eq!(rt; rows[0], Row::BLANK);
    assert_eq!(rt; again, Err(Refusal::NotPassed(12)));
    assert_eq!(rt; archive, [7u8; 13]);
}
