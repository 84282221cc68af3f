// The second decoder's answers.
use crate::answer::{Answer, refused};
use crate::decoder::{Decoder, Station};
use second::{Decoded, Failed, Fault, Rules, Sheet, TrustList};
use std::alloc::{AllocError, Global};

pub struct Second;

/// The profile of these bytes: a fixed one by its name, or a sheet.
pub fn rules(profile: &[u8]) -> Result<Rules, Fault> {
    match profile {
        b"csk" => Ok(Rules::Csk),
        b"pck" => Ok(Rules::Pck),
        b"gmk" => Ok(Rules::Gmk),
        text => Ok(Rules::Sheet(Sheet::parse(text)?)),
    }
}

fn taken(alloc: Global, decoded: &Decoded) -> Result<Answer, AllocError> {
    let mut numbers = Vec::new(alloc);
    numbers.push(decoded.header as u64)?;
    numbers.push(decoded.span as u64)?;
    for row in &decoded.rows {
        numbers.push(u64::from(row.code))?;
        numbers.push(u64::from(row.slot))?;
        numbers.push(row.start as u64)?;
        numbers.push(row.length as u64)?;
    }
    Ok(Answer::Taken(numbers))
}

/// A refusal is an answer, and a lack of memory an error.
fn failed(failed: Failed) -> Result<Answer, AllocError> {
    match failed {
        Failed::Refused(fault) => Ok(refused(fault)),
        Failed::Memory(error) => Err(error),
    }
}

fn enter_all(list: &mut TrustList, signers: &[Vec<u8>]) -> Result<(), Failed> {
    for signer in signers {
        list.enter(signer.as_slice())?;
    }
    Ok(())
}

/// Whether the profile admits the message, and the tag and the trust list pass it.
fn judge(
    alloc: Global,
    decoded: &Decoded,
    message: &[u8],
    station: &Station,
) -> Result<(), Failed> {
    second::judge(decoded, &rules(station.profile.as_slice())?)?;
    second::check_tag(decoded, message, station.key)?;
    if station.trusted.is_empty() {
        return Ok(());
    }
    let mut list = TrustList::new(alloc);
    enter_all(&mut list, station.trusted.as_slice())?;
    if list.lists(decoded.signer.as_slice()) {
        Ok(())
    } else {
        Err(Failed::Refused(Fault::at(18, decoded.span)))
    }
}

impl Decoder for Second {
    fn walk(&self, alloc: Global, message: &[u8], rows: usize) -> Result<Answer, AllocError> {
        match second::decode(alloc, message, rows) {
            Ok(decoded) => taken(alloc, &decoded),
            Err(error) => failed(error),
        }
    }

    fn read(
        &self,
        alloc: Global,
        message: &[u8],
        rows: usize,
        station: &Station,
    ) -> Result<Answer, AllocError> {
        let decoded = match second::decode(alloc, message, rows) {
            Ok(decoded) => decoded,
            Err(error) => return failed(error),
        };
        match judge(alloc, &decoded, message, station) {
            Ok(()) => taken(alloc, &decoded),
            Err(error) => failed(error),
        }
    }

    fn part(
        &self,
        alloc: Global,
        message: &[u8],
        start: u32,
        length: u32,
    ) -> Result<Answer, AllocError> {
        match second::part(message, start as usize, length as usize) {
            Ok(part) => Answer::bytes(alloc, part),
            Err(fault) => Ok(refused(fault)),
        }
    }

    fn time(&self, alloc: Global, payload: &[u8]) -> Result<Answer, AllocError> {
        match second::time(payload) {
            Ok(seconds) => Answer::bytes(alloc, &seconds.to_be_bytes()),
            Err(fault) => Ok(refused(fault)),
        }
    }

    fn sheet(&self, alloc: Global, text: &[u8]) -> Result<Answer, AllocError> {
        let sheet = match Sheet::parse(text) {
            Ok(sheet) => sheet,
            Err(fault) => return Ok(refused(fault)),
        };
        let mut numbers = Vec::new(alloc);
        for slot in 1..=12 {
            let limits = sheet.limits(slot);
            for number in [slot, limits.least, limits.most, limits.rank] {
                numbers.push(u64::from(number))?;
            }
        }
        Ok(Answer::Taken(numbers))
    }

    fn tag(
        &self,
        alloc: Global,
        key: u64,
        signer: &[u8],
        span: &[u8],
    ) -> Result<Answer, AllocError> {
        Answer::bytes(alloc, &second::tag(key, signer, span).to_be_bytes())
    }

    fn enter(
        &self,
        alloc: Global,
        entered: &[Vec<u8>],
        signer: &[u8],
    ) -> Result<Answer, AllocError> {
        let mut list = TrustList::new(alloc);
        let told = match enter_all(&mut list, entered) {
            Ok(()) => list.enter(signer),
            refused => refused,
        };
        match told {
            Ok(()) => Ok(Answer::Taken(Vec::new(alloc))),
            Err(error) => failed(error),
        }
    }
}
