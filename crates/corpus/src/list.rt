// Tests of drafts: lists of calls, and what stands with each call.
use crate::call::{Call, List, Step};
use crate::malformed::Malformed;
use crate::member::{byte, bytes, list, size, text, word};
use crate::test::fault;
use second::draft::Answer;
use serde_json::Value;
use std::alloc::Global;

fn head(alloc: Global, call: &Value) -> Result<Call, Malformed> {
    Ok(Call::Head {
        byte3: byte(call, "byte3")?,
        csb: word(call, "csbId")?,
        cs: byte(call, "cs")?,
        map_type: byte(call, "mapType")?,
        map_info: bytes(alloc, call, "mapInfo")?,
    })
}

fn close(alloc: Global, call: &Value) -> Result<Call, Malformed> {
    Ok(Call::Close {
        profile: Vec::from_slice(alloc, text(call, "profile")?.as_bytes())?,
        sign_type: byte(call, "signType")?,
        length: size(call, "length")?,
    })
}

fn add(alloc: Global, call: &Value) -> Result<Call, Malformed> {
    Ok(Call::Add {
        position: size(call, "position")?,
        code: byte(call, "code")?,
        body: bytes(alloc, call, "body")?,
    })
}

fn replace(alloc: Global, call: &Value) -> Result<Call, Malformed> {
    Ok(Call::Replace {
        position: size(call, "position")?,
        code: byte(call, "code")?,
        body: bytes(alloc, call, "body")?,
    })
}

fn call_of(alloc: Global, call: &Value) -> Result<Call, Malformed> {
    match text(call, "call")? {
        "head" => head(alloc, call),
        "add" => add(alloc, call),
        "replace" => replace(alloc, call),
        "remove" => Ok(Call::Remove(size(call, "position")?)),
        "close" => close(alloc, call),
        "sign" => Ok(Call::Sign(bytes(alloc, call, "signature")?)),
        "withdraw" => Ok(Call::Withdraw),
        "release" => Ok(Call::Release),
        _ => Err(Malformed::Name("call")),
    }
}

/// The calls of a test.
pub fn list_of(alloc: Global, test: &Value) -> Result<List, Malformed> {
    let mut calls = Vec::new(alloc);
    for call in list(test, "calls")? {
        calls.push(call_of(alloc, call)?)?;
    }
    Ok(List {
        length: size(test, "length")?,
        fill: byte(test, "fill")?,
        calls,
    })
}

fn answer(call: &Value) -> Result<Answer, Malformed> {
    match text(call, "answer")? {
        "ok" => Ok(Answer::Done),
        "length" => Ok(Answer::Length(size(call, "delivered")?)),
        "refused" => Ok(Answer::Refused(fault(call)?)),
        "misplaced" => Ok(Answer::Misplaced),
        _ => Err(Malformed::Name("answer")),
    }
}

/// What stands with each call of a test.
pub fn expected_steps(alloc: Global, test: &Value) -> Result<Vec<Step>, Malformed> {
    let mut steps = Vec::new(alloc);
    for call in list(test, "calls")? {
        steps.push(Step {
            answer: answer(call)?,
            encoding: bytes(alloc, call, "encoding")?,
            span: bytes(alloc, call, "span")?,
        })?;
    }
    Ok(steps)
}
