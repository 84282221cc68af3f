// All that this program asks of the library, and nothing else asks it.
use crate::everything::Everything;
use corpus::{Answer, Call, Decoder, Station, Step};
use drafter::{State, begin};
use plain::{Head, Reply};
use profile::{AnyProfile, Fixed, Profile, Sheet, SheetRefusal};
use reader::read;
use second::{Fault, draft};
use std::alloc::{AllocError, Global};
use verifier::{KeyTag, Pinned, TrustList, TrustRefusal};
use walk::{lookup, time, walk};
use wire::{MOST_PAYLOADS, Report, Row, Walked};

pub struct Library;

// What stands in the rows before a call. No row of a message is like it.
const BEFORE: Row = Row {
    code: 170,
    slot: 187,
    start: 0xcccc_cccc,
    length: 0xdddd_dddd,
};

// The longest table of rows that is lent.
const ROOM: usize = 32;

// No refusal has this number: rows were written that no answer may touch.
const TOUCHED: Fault = Fault {
    number: 255,
    place: 0,
    detail: 0,
};

fn fault(report: Report) -> Fault {
    Fault {
        number: report.number,
        place: report.place,
        detail: report.detail,
    }
}

fn is_kept(rows: &[Row]) -> bool {
    rows.iter().all(|row| *row == BEFORE)
}

fn taken(alloc: Global, walked: &Walked, table: &[Row; ROOM]) -> Result<Answer, AllocError> {
    let mut numbers = Vec::new(alloc);
    numbers.push(walked.header as u64)?;
    numbers.push(walked.span as u64)?;
    for row in table.iter().take(walked.count) {
        numbers.push(u64::from(row.code))?;
        numbers.push(u64::from(row.slot))?;
        numbers.push(u64::from(row.start))?;
        numbers.push(u64::from(row.length))?;
    }
    Ok(Answer::Taken(numbers))
}

// The rows after the last payload are blank up to the 24th, and as they were after that.
fn is_ended(walked: &Walked, table: &[Row; ROOM]) -> bool {
    let mut blank = table.iter().take(MOST_PAYLOADS).skip(walked.count);
    blank.all(|row| *row == Row::BLANK) && is_kept(&table[MOST_PAYLOADS..])
}

fn answer(
    alloc: Global,
    told: Result<Walked, Report>,
    table: &[Row; ROOM],
) -> Result<Answer, AllocError> {
    match told {
        Ok(walked) if is_ended(&walked, table) => taken(alloc, &walked, table),
        Err(report) if is_kept(table) => Ok(Answer::Refused(fault(report))),
        _ => Ok(Answer::Refused(TOUCHED)),
    }
}

fn choice(profile: &[u8]) -> Result<AnyProfile, SheetRefusal> {
    match profile {
        b"csk" => Ok(AnyProfile::Fixed(Fixed::Csk)),
        b"pck" => Ok(AnyProfile::Fixed(Fixed::Pck)),
        b"gmk" => Ok(AnyProfile::Fixed(Fixed::Gmk)),
        text => Ok(AnyProfile::Sheet(Sheet::parse(text)?)),
    }
}

fn trusting(signers: &[Vec<u8>], tag: KeyTag) -> Result<TrustList<KeyTag>, TrustRefusal> {
    let mut list = TrustList::new(tag);
    for signer in signers {
        list.enter(signer)?;
    }
    Ok(list)
}

fn judge(message: &[u8], rows: &mut [Row], station: &Station) -> Result<Walked, Report> {
    let tag = KeyTag { key: station.key };
    let profile = choice(&station.profile)?;
    if station.trusted.is_empty() {
        Ok(read(message, rows, &profile, &tag)?)
    } else {
        let list = trusting(&station.trusted, tag)?;
        Ok(read(message, rows, &profile, &list)?)
    }
}

impl Decoder for Library {
    fn walk(&self, alloc: Global, message: &[u8], rows: usize) -> Result<Answer, AllocError> {
        let mut table = [BEFORE; ROOM];
        let told = walk(message, &mut table[..rows.min(ROOM)]).map_err(Report::from);
        answer(alloc, told, &table)
    }

    fn read(
        &self,
        alloc: Global,
        message: &[u8],
        rows: usize,
        station: &Station,
    ) -> Result<Answer, AllocError> {
        let mut table = [BEFORE; ROOM];
        let told = judge(message, &mut table[..rows.min(ROOM)], station);
        answer(alloc, told, &table)
    }

    fn part(
        &self,
        alloc: Global,
        message: &[u8],
        start: u32,
        length: u32,
    ) -> Result<Answer, AllocError> {
        let row = Row {
            code: 4,
            slot: 11,
            start,
            length,
        };
        match lookup(message, &row) {
            Ok(part) => Answer::bytes(alloc, part.bytes),
            Err(refusal) => Ok(Answer::Refused(fault(refusal.into()))),
        }
    }

    fn time(&self, alloc: Global, payload: &[u8]) -> Result<Answer, AllocError> {
        match time(payload) {
            Ok(seconds) => Answer::bytes(alloc, &seconds.to_be_bytes()),
            Err(refusal) => Ok(Answer::Refused(fault(refusal.into()))),
        }
    }

    fn sheet(&self, alloc: Global, text: &[u8]) -> Result<Answer, AllocError> {
        let sheet = match Sheet::parse(text) {
            Ok(sheet) => sheet,
            Err(refusal) => return Ok(Answer::Refused(fault(refusal.into()))),
        };
        let mut numbers = Vec::new(alloc);
        for slot in 1..=12 {
            let bounds = sheet.bounds(slot);
            for number in [slot, bounds.least, bounds.most, sheet.rank(slot)] {
                numbers.push(u64::from(number))?;
            }
        }
        Ok(Answer::Taken(numbers))
    }

    fn tag(
        &self,
        alloc: Global,
        key: u64,
        signer: &[u8],
        span: &[u8],
    ) -> Result<Answer, AllocError> {
        Answer::bytes(alloc, &KeyTag { key }.sign(signer, span))
    }

    fn enter(
        &self,
        alloc: Global,
        entered: &[Vec<u8>],
        signer: &[u8],
    ) -> Result<Answer, AllocError> {
        let told = match trusting(entered, KeyTag { key: 0 }) {
            Ok(mut list) => list.enter(signer),
            Err(refusal) => Err(refusal),
        };
        match told {
            Ok(()) => Ok(Answer::Taken(Vec::new(alloc))),
            Err(refusal) => Ok(Answer::Refused(fault(refusal.into()))),
        }
    }
}

// Whether a verifier that is pinned to this signer and span passes the message by its own signature.
pub fn is_signed_by(message: &[u8], signer: &[u8], span: usize) -> bool {
    let (Some(spanned), Some(signature)) = (message.get(..span), message.get(span..)) else {
        return false;
    };
    let pinned = Pinned {
        signer,
        span: spanned,
        signature,
    };
    let mut rows = [Row::BLANK; MOST_PAYLOADS];
    read(message, &mut rows, &Everything, &pinned).is_ok()
}

// The same under a profile: what read tells of a message that was delivered.
pub fn read_delivered(
    alloc: Global,
    message: &[u8],
    profile: &[u8],
    signer: &[u8],
    span: usize,
) -> Result<Answer, AllocError> {
    let pinned = Pinned {
        signer,
        span: message.get(..span).unwrap_or(&[]),
        signature: message.get(span..).unwrap_or(&[]),
    };
    let mut table = [BEFORE; ROOM];
    let told = match choice(profile) {
        Ok(profile) => read(message, &mut table, &profile, &pinned).map_err(Report::from),
        Err(refusal) => Err(refusal.into()),
    };
    answer(alloc, told, &table)
}

// A call as the library is given it, and a profile for it if it is a close.
fn lent<'a>(call: &'a Call, profile: &'a AnyProfile) -> plain::Call<'a, AnyProfile> {
    match call {
        Call::Head {
            byte3,
            csb,
            cs,
            map_type,
            map_info,
        } => plain::Call::Head(Head {
            byte3: *byte3,
            csb: *csb,
            cs: *cs,
            map_type: *map_type,
            map_info,
        }),
        Call::Add {
            position,
            code,
            body,
        } => plain::Call::Add {
            position: *position,
            code: *code,
            body,
        },
        Call::Replace {
            position,
            code,
            body,
        } => plain::Call::Replace {
            position: *position,
            code: *code,
            body,
        },
        Call::Remove(position) => plain::Call::Remove {
            position: *position,
        },
        Call::Close {
            sign_type,
            length,
            ..
        } => plain::Call::Close {
            profile,
            sign_type: *sign_type,
            length: *length,
        },
        Call::Sign(signature) => plain::Call::Sign(signature),
        Call::Withdraw => plain::Call::Withdraw,
        Call::Release => plain::Call::Release,
    }
}

// The profile of a close. No list has one that is refused.
fn profile_of(call: &Call) -> AnyProfile {
    match call {
        Call::Close { profile, .. } => choice(profile).unwrap_or(AnyProfile::Fixed(Fixed::Csk)),
        _ => AnyProfile::Fixed(Fixed::Csk),
    }
}

fn is_answer(reply: Reply, answer: draft::Answer) -> bool {
    match reply {
        Reply::Done => answer == draft::Answer::Done,
        Reply::Misplaced => answer == draft::Answer::Misplaced,
        Reply::Delivered(length) | Reply::Released(length) => {
            answer == draft::Answer::Length(length)
        }
        Reply::Refused(refusal) => { answer == draft::Answer::Refused(fault(refusal.into())) }
    }
}

// What a signature is over; no bytes unless the draft is out.
fn span<'a>(state: &'a State<'_>) -> &'a [u8] {
    match state {
        State::Out(out) => out.span(),
        _ => &[],
    }
}

fn is_alike(state: &State<'_>, reply: Reply, step: &Step) -> bool {
    is_answer(reply, step.answer)
        && state.bytes() == step.encoding.as_slice()
        && span(state) == step.span.as_slice()
}

// The first call after which the library's draft in this buffer is not as the steps say. A draft that
// is out can't be let go, so that it is kept until the end.
pub fn first_difference(buffer: &mut [u8], calls: &[Call], steps: &[Step]) -> Option<usize> {
    let mut state = State::Open(begin(buffer));
    let mut found = None;
    for (i, (call, step)) in calls.iter().zip(steps).enumerate() {
        let (next, reply) = state.call(&lent(call, &profile_of(call)));
        state = next;
        if !is_alike(&state, reply, step) {
            found = Some(i);
            break;
        }
    }
    let _buffer = state.end();
    found
}
