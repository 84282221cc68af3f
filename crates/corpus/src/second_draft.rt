// Lists of calls on the second decoder's draft.
use crate::call::{Call, List, Step};
use crate::second_answers::rules;
use second::draft::{Answer, PlainDraft};
use std::alloc::{AllocError, Global};

fn answer(draft: &mut PlainDraft, call: &Call) -> Result<Answer, AllocError> {
    match call {
        Call::Head {
            byte3,
            csb,
            cs,
            map_type,
            map_info,
        } => draft.head(*byte3, *csb, *cs, *map_type, map_info),
        Call::Add {
            position,
            code,
            body,
        } => draft.add(*position, *code, body),
        Call::Replace {
            position,
            code,
            body,
        } => draft.replace(*position, *code, body),
        Call::Remove(position) => draft.remove(*position),
        Call::Close {
            profile,
            sign_type,
            length,
        } => match rules(profile) {
            Ok(rules) => draft.close(&rules, *sign_type, *length),
            Err(fault) => Ok(Answer::Refused(fault)),
        },
        Call::Sign(signature) => draft.sign(signature),
        Call::Withdraw => draft.withdraw(),
        Call::Release => draft.release(),
    }
}

/// Makes a call, and tells what stands after it.
pub fn make(alloc: Global, draft: &mut PlainDraft, call: &Call) -> Result<Step, AllocError> {
    let answer = answer(draft, call)?;
    Ok(Step {
        answer,
        encoding: Vec::from_slice(alloc, draft.encoding())?,
        span: Vec::from_slice(alloc, draft.span())?,
    })
}

/// Makes all calls of a list.
pub fn steps(alloc: Global, list: &List) -> Result<Vec<Step>, AllocError> {
    let buffer = vec![in alloc; list.fill; list.length]?;
    let mut draft = PlainDraft::begin(alloc, &buffer)?;
    let mut steps = Vec::new(alloc);
    for call in &list.calls {
        steps.push(make(alloc, &mut draft, call)?)?;
    }
    Ok(steps)
}
