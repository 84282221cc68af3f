// Judging the records of a message by a profile: refusals 14 to 17, in their order.
use crate::fault::Fault;
use crate::kind::byte_or_zero;
use crate::message::{Decoded, Message, Payload};
use crate::rules::{Field, Limits, Rules};
use crate::slots;

/// Whether the profile admits the message.
pub fn judge(decoded: &Decoded, rules: &Rules) -> Result<(), Fault> {
    judge_records(&decoded.message, rules)
}

/// The same from the records alone. The places are those of their encoding.
pub fn judge_records(message: &Message, rules: &Rules) -> Result<(), Fault> {
    judge_header(message, rules)?;
    let passed = judge_payloads(message, rules)?;
    judge_sign(message, rules, passed)?;
    judge_least(message, rules)
}

/// How far the payloads are judged: where the next one starts, and the rank of the last one. Before
/// the first the rank is 0, and none is below that.
#[derive(Clone, Copy)]
struct Passed {
    start: usize,
    rank: u8,
}

/// The fields of the header: each with its value and its byte.
fn judge_header(message: &Message, rules: &Rules) -> Result<(), Fault> {
    judge_field(rules, Field::Verify, message.byte3 / 128, 3)?;
    judge_field(rules, Field::PrfFunc, message.byte3 % 128, 3)?;
    judge_field(rules, Field::Purpose, (message.csb >> 28) as u8, 4)?;
    judge_field(rules, Field::SessionCount, message.cs, 8)
}

fn judge_field(rules: &Rules, field: Field, value: u8, place: usize) -> Result<(), Fault> {
    if rules.takes(field, value) {
        return Ok(());
    }
    Err(Fault {
        number: 14,
        place,
        detail: field as u8,
    })
}

/// The payloads before SIGN, each in turn: its fields, its rank, its count.
fn judge_payloads(message: &Message, rules: &Rules) -> Result<Passed, Fault> {
    let mut passed = Passed {
        start: message.header_length(),
        rank: 0,
    };
    for (i, payload) in message.payloads.iter().enumerate() {
        judge_body(payload, rules, passed.start)?;
        let slot = payload.slot();
        let count = count_of(&message.payloads.as_slice()[..=i], slot);
        let rank = judge_standing(rules.limits(slot), slot, count, passed)?;
        passed = Passed {
            start: passed.start.saturating_add(payload.length()),
            rank,
        };
    }
    Ok(passed)
}

fn judge_sign(message: &Message, rules: &Rules, passed: Passed) -> Result<(), Fault> {
    judge_field(rules, Field::SignType, message.sign_type, passed.start)?;
    judge_standing(rules.limits(slots::SIGN), slots::SIGN, 1, passed)?;
    Ok(())
}

/// Each slot at the end, the lowest first, SIGN once.
fn judge_least(message: &Message, rules: &Rules) -> Result<(), Fault> {
    let payloads = message.payloads.as_slice();
    for slot in 1..=12u8 {
        let count = if slot == slots::SIGN {
            1
        } else {
            count_of(payloads, slot)
        };
        if count < usize::from(rules.limits(slot).least) {
            return Err(Fault {
                number: 17,
                place: message.length(),
                detail: slot,
            });
        }
    }
    Ok(())
}

/// How many of the payloads stand in the slot.
fn count_of(payloads: &[Payload], slot: u8) -> usize {
    payloads
        .iter()
        .filter(|payload| payload.slot() == slot)
        .count()
}

/// Judges rank and count of a payload that makes its slot stand `count` times, and tells its rank.
fn judge_standing(limits: Limits, slot: u8, count: usize, passed: Passed) -> Result<u8, Fault> {
    let refused = |number: u8| Fault {
        number,
        place: passed.start,
        detail: slot,
    };
    if limits.rank < passed.rank {
        return Err(refused(15));
    }
    if count > usize::from(limits.most) {
        return Err(refused(16));
    }
    Ok(limits.rank)
}

/// The fields inside a payload that starts at `start`.
fn judge_body(payload: &Payload, rules: &Rules, start: usize) -> Result<(), Fault> {
    for (field, offset) in fields_of(payload) {
        // A body begins after the next-payload byte.
        let value = byte_or_zero(payload.body.as_slice(), *offset);
        judge_field(
            rules,
            *field,
            value,
            start.saturating_add(1).saturating_add(*offset),
        )?;
    }
    Ok(())
}

/// The fields of a payload before SIGN, the lowest first, and where in the body each stands.
fn fields_of(payload: &Payload) -> &'static [(Field, usize)] {
    match payload.code {
        11 => &[(Field::RandLength, 0)],
        14 => &[(Field::IdType, 1)],
        10 => &[(Field::ProtType, 1)],
        26 => &[(Field::SakkeParams, 0), (Field::IdScheme, 1)],
        21 if payload.slot() == slots::INNER_SAKKE => {
            &[(Field::SakkeParams, 4), (Field::IdScheme, 5)]
        }
        _ => &[],
    }
}
