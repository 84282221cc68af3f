// The calls that the group server makes, some of which are refused.
use crate::key::{CUT_POLICY, HEAD, POLICY, POLICY_AT, SERVER, payloads};
use crate::part::front;
use crate::stations::{KEY, ROOM, SIGN_LENGTH, SIGN_TYPE};
use exchange::{Made, run};
use plain::{Call, Reply};
use profile::Fixed;
use std::io;
use wire::Kind;

type Calls<'a> = Vec<Call<'a, Fixed>>;

// SIGN can't be added: close puts it there.
const SIGN: [u8; 3] = [0x20, 1, 0];

fn add_sign() -> Call<'static, Fixed> {
    Call::Add {
        position: 0,
        code: Kind::Sign.code(),
        body: &SIGN,
    }
}

fn change_policy(body: &'static [u8]) -> Call<'static, Fixed> {
    Call::Replace {
        position: POLICY_AT,
        code: Kind::Sp.code(),
        body,
    }
}

fn add_payloads(calls: &mut Calls<'_>) -> io::Result<()> {
    for (position, payload) in payloads().iter().enumerate() {
        calls.push(Call::Add {
            position,
            code: payload.kind.code(),
            body: payload.body,
        })?;
    }
    Ok(())
}

// The header and the payloads.
fn records(rt: &HostRuntime) -> io::Result<Calls<'static>> {
    let mut calls = Vec::new(rt.alloc());
    calls.push(Call::Head(HEAD))?;
    add_payloads(&mut calls)?;
    Ok(calls)
}

fn close(profile: &Fixed) -> Call<'_, Fixed> {
    Call::Close {
        profile,
        sign_type: SIGN_TYPE,
        length: SIGN_LENGTH,
    }
}

// The edits and the close, from which on the span is known.
fn until_close<'a>(rt: &HostRuntime, profile: &'a Fixed) -> io::Result<Calls<'a>> {
    let mut calls = records(rt)?;
    calls.push(add_sign())?;
    calls.push(change_policy(&CUT_POLICY))?;
    calls.push(change_policy(&POLICY))?;
    calls.push(close(profile))?;
    Ok(calls)
}

/// The signature of the message. It is over all but itself, so those calls are made once without
/// it.
pub fn signature(rt: &HostRuntime, profile: &Fixed) -> io::Result<[u8; SIGN_LENGTH]> {
    let calls = until_close(rt, profile)?;
    let mut buffer = [0; ROOM];
    let mut replies = vec![in rt.alloc(); Reply::Done; calls.len()]?;
    let Made { length, .. } = run(&mut buffer, &calls, &mut replies);
    let span = front(&buffer, length.saturating_sub(SIGN_LENGTH));
    Ok(KEY.sign(&SERVER, span))
}

/// All calls. After the close an edit, which a draft that is out does not take, and a signature
/// that is too short.
pub fn calls<'a>(
    rt: &HostRuntime,
    profile: &'a Fixed,
    signature: &'a [u8; SIGN_LENGTH],
) -> io::Result<Calls<'a>> {
    let mut calls = until_close(rt, profile)?;
    calls.push(change_policy(&POLICY))?;
    calls.push(Call::Sign(&signature[1..]))?;
    calls.push(Call::Sign(signature))?;
    calls.push(Call::Release)?;
    Ok(calls)
}

/// The calls for the same message again, of which none is refused. They leave the draft out: it is
/// released when the list is over.
pub fn calls_once_more<'a>(
    rt: &HostRuntime,
    profile: &'a Fixed,
    signature: &'a [u8; SIGN_LENGTH],
) -> io::Result<Calls<'a>> {
    let mut calls = records(rt)?;
    calls.push(change_policy(&POLICY))?;
    calls.push(close(profile))?;
    calls.push(Call::Sign(signature))?;
    Ok(calls)
}
