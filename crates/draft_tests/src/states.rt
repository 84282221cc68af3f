// Calls on a draft in whichever state: those that its state takes, and those that are misplaced.
use crate::stations::{HEADER, head, message, sheet};
use drafter::{State, begin};
use plain::{Call, Reply};
use profile::Sheet;
use std::process::Abort;
use wire::Refusal;

const SIGNATURE: [u8; 4] = [1, 2, 3, 4];

// A RAND of one byte, and one of none in its place.
fn add<'a>() -> Call<'a, Sheet> {
    Call::Add {
        position: 0,
        code: 11,
        body: &[1, 9],
    }
}

fn replace<'a>() -> Call<'a, Sheet> {
    Call::Replace {
        position: 0,
        code: 11,
        body: &[0],
    }
}

fn remove<'a>() -> Call<'a, Sheet> {
    Call::Remove { position: 0 }
}

fn sign<'a>() -> Call<'a, Sheet> {
    Call::Sign(&SIGNATURE)
}

fn close<'a>(profile: &'a Sheet) -> Call<'a, Sheet> {
    Call::Close {
        profile,
        sign_type: 2,
        length: 4,
    }
}

// Makes calls in turn, and asks for the reply of each.
fn after<'a>(rt: &impl Abort, state: State<'a>, calls: &[(Call<'_, Sheet>, Reply)]) -> State<'a> {
    let mut state = state;
    for (call, wanted) in calls {
        let (next, reply) = state.call(call);
        state = next;
        assert_eq!(rt; reply, *wanted);
    }
    state
}

#[test]
fn an_open_draft_takes_edits(rt: HostRuntime) {
    let mut buffer = [9u8; 13];
    let calls = [
        (remove(), Reply::Refused(Refusal::NoHeader)),
        (Call::Head(head()), Reply::Done),
        (sign(), Reply::Misplaced),
        (add(), Reply::Done),
        (add(), Reply::Refused(Refusal::NoRoom)),
        (Call::Withdraw, Reply::Misplaced),
        (replace(), Reply::Done),
        (Call::Release, Reply::Misplaced),
    ];
    let state = after(&rt, State::Open(begin(&mut buffer)), &calls);
    assert_eq!(rt;
        state.bytes(),
        [1, 26, 11, 1, 32, 0, 0, 1, 0, 1, 0, 0].as_slice()
    );
    let state = after(&rt, state, &[(remove(), Reply::Done)]);
    assert_eq!(rt; state.bytes(), HEADER.as_slice());
    let left = state.end();
    assert_eq!(rt;
        &*left,
        [1, 26, 0, 1, 32, 0, 0, 1, 0, 1, 0, 0, 0].as_slice()
    );
}

// Each function of a table names the lifetime of its calls, which a proof wants.
fn out_and_signed<'a>(sheet: &'a Sheet) -> [(Call<'a, Sheet>, Reply); 9] {
    [
        (Call::Head(head()), Reply::Done),
        (close(sheet), Reply::Done),
        (Call::Head(head()), Reply::Misplaced),
        (add(), Reply::Misplaced),
        (replace(), Reply::Misplaced),
        (remove(), Reply::Misplaced),
        (close(sheet), Reply::Misplaced),
        (Call::Sign(&[1]), Reply::Refused(Refusal::SignatureLength)),
        (sign(), Reply::Delivered(16)),
    ]
}

fn out_again<'a>(sheet: &'a Sheet) -> [(Call<'a, Sheet>, Reply); 2] {
    [(close(sheet), Reply::Done), (sign(), Reply::Delivered(16))]
}

#[test]
fn a_draft_that_is_out_takes_signatures(rt: HostRuntime) {
    let sheet = sheet().expect(&rt, "a sheet");
    let mut buffer = [9u8; 16];
    let state = after(
        &rt,
        State::Open(begin(&mut buffer)),
        &out_and_signed(&sheet),
    );
    assert_eq!(rt; state.bytes(), message(SIGNATURE).as_slice());
    let state = after(&rt, state, &[(Call::Withdraw, Reply::Done)]);
    assert_eq!(rt; state.bytes(), HEADER.as_slice());
    let state = after(&rt, state, &out_again(&sheet));
    let left = state.end();
    assert_eq!(rt; &*left, message(SIGNATURE).as_slice());
}

fn released<'a>(sheet: &'a Sheet) -> [(Call<'a, Sheet>, Reply); 12] {
    [
        (Call::Head(head()), Reply::Done),
        (close(sheet), Reply::Done),
        (sign(), Reply::Delivered(16)),
        (Call::Release, Reply::Released(16)),
        (Call::Head(head()), Reply::Misplaced),
        (add(), Reply::Misplaced),
        (replace(), Reply::Misplaced),
        (remove(), Reply::Misplaced),
        (close(sheet), Reply::Misplaced),
        (sign(), Reply::Misplaced),
        (Call::Withdraw, Reply::Misplaced),
        (Call::Release, Reply::Misplaced),
    ]
}

#[test]
fn a_draft_that_was_released_takes_no_call(rt: HostRuntime) {
    let sheet = sheet().expect(&rt, "a sheet");
    let mut buffer = [9u8; 17];
    let state = after(&rt, State::Open(begin(&mut buffer)), &released(&sheet));
    assert_eq!(rt; state.bytes(), message(SIGNATURE).as_slice());
    let left = state.end();
    assert_eq!(rt;
        left.split_last(),
        Some((&0, message(SIGNATURE).as_slice()))
    );
}

fn faulty<'a>(sheet: &'a Sheet) -> [(Call<'a, Sheet>, Reply); 4] {
    [
        (Call::Head(head()), Reply::Done),
        (close(sheet), Reply::Done),
        (sign(), Reply::Refused(Refusal::NoRoom)),
        (Call::Release, Reply::Released(0)),
    ]
}

#[test]
fn a_faulty_draft_is_released(rt: HostRuntime) {
    let sheet = sheet().expect(&rt, "a sheet");
    let mut buffer = [9u8; 15];
    match after(&rt, State::Open(begin(&mut buffer)), &faulty(&sheet)) {
        State::Released(released) => {
            assert_eq!(rt; released.bytes(), HEADER.as_slice());
            let left = released.end();
            assert_eq!(rt;
                &*left,
                [1, 26, 0, 1, 32, 0, 0, 1, 0, 1, 0, 0, 0, 0, 0].as_slice()
            );
        }
        state => {
            let _buffer = state.end();
            panic!(rt; "it is not released");
        }
    }
}
