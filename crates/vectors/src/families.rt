// The families that are computed from the messages of the corpus.
use crate::drafts::Drafts;
use crate::lists::{Family, Record, list};
use crate::orders::Orders;
use crate::report::Report;
use crate::systematic::{WIDE, lines, parts, random_messages, sheets, times};
use crate::tally::Tally;
use crate::tests::{has_flag, judge_of};
use crate::variants::Variants;
use corpus::{Group, Malformed, Station, bytes, text};
use second::{Message, decode};
use serde_json::Value;
use std::alloc::{AllocError, Global};

// Messages that are not named are varied if they are no longer than this.
const SHORT: usize = 80;

// Every byte of a message that is taken is tried at every value if it is no longer than this, or if the
// message has one payload of each slot and is read.
const SHORTEST: usize = 16;

fn is_taken(test: &Value) -> bool {
    test.get("result").and_then(Value::as_str) == Some("taken")
}

// The variants of a named message, a line for each kind.
fn vary<'a>(
    report: &mut Report<'_>,
    name: &str,
    message: &'a [u8],
    station: &'a Station,
) -> anyhow::Result<()> {
    let alloc = report.rt.alloc();
    let variants = Variants {
        alloc,
        message,
        station: Some(station),
    };
    let mut tally = Tally::new(alloc);
    variants.cuts(&mut tally)?;
    report.family(&format!(in alloc; "cut at every byte: {name}")?, &tally)?;
    let mut tally = Tally::new(alloc);
    variants.changes(&mut tally)?;
    report.family(&format!(in alloc; "a byte changed: {name}")?, &tally)?;
    let mut tally = Tally::new(alloc);
    variants.additions(&mut tally)?;
    report.family(&format!(in alloc; "a byte added: {name}")?, &tally)?;
    Ok(())
}

// Its payloads in other orders, or one left out or twice.
fn arrange<'a>(
    report: &mut Report<'_>,
    name: &str,
    message: &'a Message,
    station: &'a Station,
) -> anyhow::Result<()> {
    let alloc = report.rt.alloc();
    let orders = Orders { message, station };
    let mut tally = Tally::new(alloc);
    orders.orders(alloc, &mut tally)?;
    report.family(
        &format!(in alloc; "other orders of the payloads: {name}")?,
        &tally,
    )?;
    let mut tally = Tally::new(alloc);
    orders.counts(alloc, &mut tally)?;
    report.family(
        &format!(in alloc; "a payload left out or twice: {name}")?,
        &tally,
    )?;
    Ok(())
}

// The named messages of a group that reads, each in its variants.
pub fn named(report: &mut Report<'_>, group: &Group<'_>) -> anyhow::Result<()> {
    let alloc = report.rt.alloc();
    let Some(station) = &group.station else {
        return Ok(());
    };
    for test in group
        .tests
        .iter()
        .filter(|test| has_flag(test, "StandardTable"))
    {
        let message = bytes(alloc, test, "message")?;
        let (title, by) = (text(test, "comment")?, judge_of(group));
        let name = format!(in alloc; "{title}, {by}")?;
        vary(report, &name, &message, station)?;
        if let Ok(decoded) = decode(alloc, &message, 24) {
            arrange(report, &name, &decoded.message, station)?;
        }
    }
    Ok(())
}

// How the variants of all other short messages of a file come out.
#[derive(Drop)]
pub struct Others {
    cut: Tally,
    changed: Tally,
    longer: Tally,
    valued: Tally,
}

impl Others {
    pub fn new(alloc: Global) -> Others {
        Others {
            cut: Tally::new(alloc),
            changed: Tally::new(alloc),
            longer: Tally::new(alloc),
            valued: Tally::new(alloc),
        }
    }

    fn message(&mut self, variants: &Variants<'_>, whole: bool) -> Result<(), AllocError> {
        if variants.message.len() <= SHORT {
            variants.cuts(&mut self.cut)?;
            variants.changes(&mut self.changed)?;
            variants.additions(&mut self.longer)?;
        }
        if whole {
            variants.values(&mut self.valued)?;
        }
        Ok(())
    }

    pub fn group(&mut self, alloc: Global, group: &Group<'_>) -> Result<(), Malformed> {
        let station = group.station.as_ref();
        for test in group
            .tests
            .iter()
            .filter(|test| !has_flag(test, "StandardTable"))
        {
            let message = bytes(alloc, test, "message")?;
            let variants = Variants {
                alloc,
                message: &message,
                station,
            };
            let short = message.len() <= SHORTEST || has_flag(test, "Short") && station.is_some();
            self.message(&variants, short && is_taken(test))?;
        }
        Ok(())
    }

    pub fn tell(&self, report: &mut Report<'_>) -> anyhow::Result<()> {
        report.family("cut at every byte: the other short messages", &self.cut)?;
        report.family("a byte changed: the other short messages", &self.changed)?;
        report.family("a byte added: the other short messages", &self.longer)?;
        report.family("a byte at every value, and signed anew", &self.valued)?;
        Ok(())
    }
}

// The smallest message: a header of ten bytes and SIGN with the signature AA.
const SMALL: [u8; 13] = [1, 26, 4, 1, 0x20, 0, 0, 1, 0, 1, 0x20, 1, 0xaa];

// The record with the most payloads.
fn fullest(records: &[Record]) -> Option<&Record> {
    let mut found: Option<&Record> = None;
    for record in records {
        let most = found.map_or(0, |found| found.message.payloads.len());
        if record.message.payloads.len() > most && record.message.payloads.len() < 13 {
            found = Some(record);
        }
    }
    found
}

// Times, parts and sheets, asked in every way; and messages made of the payloads of one.
pub fn systematic(report: &mut Report<'_>, records: &[Record]) -> anyhow::Result<()> {
    let alloc = report.rt.alloc();
    let Some(record) = fullest(records) else {
        return Ok(());
    };
    report.family("times of T payloads of 0 to 12 bytes", &times(alloc)?)?;
    report.family("parts of the small message", &parts(alloc, &SMALL)?)?;
    report.family("sheets of one line, numbers at their edges", &lines(alloc)?)?;
    report.family(
        "a sheet of all slots, cut, and each byte changed",
        &sheets(alloc)?,
    )?;
    let random = random_messages(alloc, &record.message, 20_000)?;
    report.family("random choices of payloads under random sheets", &random)?;
    Ok(())
}

// The lists of a family of drafts.
pub fn drafts_of(
    report: &mut Report<'_>,
    family: &Family,
    records: &[Record],
) -> anyhow::Result<()> {
    let alloc = report.rt.alloc();
    let mut drafts = Drafts::new(alloc);
    for seed in 0..family.lists as u64 {
        let (list, steps) = list(alloc, family, records, seed)?;
        let often = seed % 4 == 0 && list.length < 400;
        drafts.run(alloc, seed, &list, &steps, often)?;
    }
    report.drafts(family.name, &drafts)?;
    Ok(())
}

// The records of the messages that are taken, and the profile under which each is read, if one is.
pub fn records(alloc: Global, out: &mut Vec<Record>, group: &Group<'_>) -> Result<(), Malformed> {
    for test in group.tests.iter().filter(|test| is_taken(test)) {
        let profile = match &group.station {
            Some(station) => station.profile.as_slice(),
            None => WIDE,
        };
        if let Ok(decoded) = decode(alloc, &bytes(alloc, test, "message")?, 24) {
            out.push(Record {
                message: decoded.message,
                profile: Vec::from_slice(alloc, profile)?,
            })?;
        }
    }
    Ok(())
}
