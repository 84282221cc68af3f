// The tests of a corpus file: each by the library, by the second decoder, and by what stands in the file.
use crate::drafts::Drafts;
use crate::library::Library;
use crate::tally::Tally;
use corpus::{
    Answer, Group, Malformed, Second, ask, expected, expected_steps, list_of, number, steps, text,
};
use serde_json::Value;
use std::alloc::Global;
use std::fmt;

// An answer to a message in short: how many payloads there are, and the lengths of header and span.
#[derive(Clone, Copy)]
pub struct Brief<'a>(pub &'a Answer);

impl fmt::Display for Brief<'_> {
    fn fmt<W: fmt::Write>(&self, f: &mut fmt::Formatter<W>) -> fmt::Result {
        match self.0 {
            Answer::Taken(numbers) => match numbers.as_slice() {
                [header, span, rows @ ..] => {
                    let count = rows.len() / 4;
                    write!(f, "taken {count} {header} {span}")
                }
                _ => f.write_str("taken"),
            },
            refused => write!(f, "{refused}"),
        }
    }
}

pub fn has_flag(test: &Value, name: &str) -> bool {
    match test.get("flags").and_then(Value::as_array) {
        Some(flags) => flags.iter().any(|flag| flag.as_str() == Some(name)),
        None => false,
    }
}

// By what the messages of a group are judged.
pub fn judge_of<'a>(group: &'a Group<'_>) -> &'a str {
    match &group.station {
        None => "walked",
        Some(station) => match station.profile.as_slice() {
            b"csk" => "csk",
            b"pck" => "pck",
            b"gmk" => "gmk",
            _ => "sheet",
        },
    }
}

// Runs a test, and gives a line of its own to one of the tables or tried by hand.
pub fn run_test(
    alloc: Global,
    tally: &mut Tally,
    group: &Group<'_>,
    test: &Value,
) -> Result<Option<String>, Malformed> {
    let ours = ask(&Library, alloc, group, test)?;
    let theirs = ask(&Second, alloc, group, test)?;
    let written = expected(alloc, group.kind, test)?;
    let agrees = ours == theirs && theirs == written;
    tally.count(theirs.number(), agrees);
    if !agrees {
        let id = number(test, "tcId")?;
        tally.tell(format!(in alloc; "test {id}: ours {ours}, second {theirs}, file {written}")?)?;
    }
    if !has_flag(test, "StandardTable") && !has_flag(test, "ByHand") {
        return Ok(None);
    }
    let name = text(test, "comment")?;
    let (by, brief) = (judge_of(group), Brief(&theirs));
    let word = if agrees { "all agree" } else { "DISAGREE" };
    Ok(Some(format!(in alloc; "{name}, {by}: {brief}, {word}")?))
}

// Runs a test of drafts.
pub fn run_draft(alloc: Global, drafts: &mut Drafts, test: &Value) -> Result<(), Malformed> {
    let id = number(test, "tcId")?;
    let list = list_of(alloc, test)?;
    let written = expected_steps(alloc, test)?;
    drafts.run(alloc, id, &list, &written, list.length < 400)?;
    if steps(alloc, &list)? != written {
        drafts.calls.count(0, false);
        drafts
            .calls
            .tell(format!(in alloc; "test {id}: second, and the file")?)?;
    }
    Ok(())
}
