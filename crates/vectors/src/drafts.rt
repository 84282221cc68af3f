// Lists of calls on drafts, by both decoders, compared after each call.
use crate::library::{first_difference, read_delivered};
use crate::tally::Tally;
use corpus::{Call, Decoder, List, Second, Step, rules};
use second::{decode, draft, judge};
use std::alloc::{AllocError, Global};
use std::fmt;

// The bytes of a buffer that count.
const LONGEST: usize = 8192;

// How the calls of some lists came out.
#[derive(Drop)]
pub struct Drafts {
    pub lists: u64,
    pub done: u64,
    pub delivered: u64,
    // Messages that were delivered and that both read alike.
    pub read: u64,
    pub released: u64,
    pub misplaced: u64,
    // The calls, and their refusals.
    pub calls: Tally,
}

fn up(count: &mut u64) {
    *count = count.saturating_add(1);
}

// Whether a buffer holds an encoding, then zeros up to the end of the bytes that count, and after those
// what was there before.
fn is_left(buffer: &[u8], encoding: &[u8], fill: u8) -> bool {
    let (counted, rest) = buffer.split_at(buffer.len().min(LONGEST));
    match counted.strip_prefix(encoding) {
        Some(zeros) => {
            zeros.iter().all(|byte| *byte == 0) && rest.iter().all(|byte| *byte == fill)
        }
        None => false,
    }
}

// The first of so many calls after which the library's draft is not as the steps say, its whole buffer
// at the end among that.
fn difference(
    alloc: Global,
    list: &List,
    steps: &[Step],
    count: usize,
) -> Result<Option<usize>, AllocError> {
    let mut buffer = vec![in alloc; list.fill; list.length]?;
    let calls = list.calls.get(..count).unwrap_or(&[]);
    let found = first_difference(&mut buffer, calls, steps);
    let Some(step) = steps.get(count.saturating_sub(1)) else {
        return Ok(found);
    };
    if found.is_none() && !is_left(&buffer, &step.encoding, list.fill) {
        return Ok(Some(count.saturating_sub(1)));
    }
    Ok(found)
}

// Whether both read a message that was delivered under the profile of its close.
fn is_read(alloc: Global, message: &[u8], profile: &[u8]) -> Result<bool, AllocError> {
    let Ok(decoded) = decode(alloc, message, 24) else {
        return Ok(false);
    };
    let Ok(rules) = rules(profile) else {
        return Ok(false);
    };
    let theirs = Second.walk(alloc, message, 24)?;
    let ours = read_delivered(alloc, message, profile, &decoded.signer, decoded.span)?;
    Ok(judge(&decoded, &rules).is_ok() && ours == theirs)
}

impl Drafts {
    pub fn new(alloc: Global) -> Drafts {
        Drafts {
            lists: 0,
            done: 0,
            delivered: 0,
            read: 0,
            released: 0,
            misplaced: 0,
            calls: Tally::new(alloc),
        }
    }

    fn count(&mut self, call: &Call, answer: draft::Answer, agrees: bool) {
        let number = match answer {
            draft::Answer::Refused(fault) => fault.number,
            _ => 0,
        };
        self.calls.count(number, agrees);
        match (answer, call) {
            (draft::Answer::Done, _) => up(&mut self.done),
            (draft::Answer::Misplaced, _) => up(&mut self.misplaced),
            (draft::Answer::Length(_), Call::Release) => up(&mut self.released),
            (draft::Answer::Length(_), _) => up(&mut self.delivered),
            (draft::Answer::Refused(_), _) => {}
        }
    }

    // Counts the calls before the first difference as agreed.
    fn count_all(&mut self, list: &List, steps: &[Step], different: Option<usize>) {
        let end = different.unwrap_or(usize::MAX);
        for (i, (call, step)) in list.calls.iter().zip(steps).enumerate() {
            self.count(call, step.answer, i < end);
        }
    }

    // Reads all that was delivered, each message under the profile of the close before.
    fn read_all(&mut self, alloc: Global, list: &List, steps: &[Step]) -> Result<(), AllocError> {
        let mut profile: &[u8] = &[];
        for (call, step) in list.calls.iter().zip(steps) {
            match (call, step.answer) {
                (Call::Close { profile: given, .. }, draft::Answer::Done) => profile = given,
                (Call::Sign(_), draft::Answer::Length(_)) => {
                    if is_read(alloc, &step.encoding, profile)? {
                        up(&mut self.read);
                    }
                }
                _ => {}
            }
        }
        Ok(())
    }

    // Runs a list that has a name through the library; at each call the draft is ended once to see the
    // whole buffer, or only at the last.
    pub fn run(
        &mut self,
        alloc: Global,
        name: u64,
        list: &List,
        steps: &[Step],
        often: bool,
    ) -> Result<(), AllocError> {
        let count = list.calls.len();
        let first = if often { 1 } else { count };
        let mut different = None;
        for end in first..=count {
            different = different.or(difference(alloc, list, steps, end)?);
        }
        self.lists = self.lists.saturating_add(1);
        self.count_all(list, steps, different);
        if let Some(call) = different {
            self.calls
                .tell(format!(in alloc; "list {name}, call {call}")?)?;
        }
        self.read_all(alloc, list, steps)
    }
}

impl fmt::Display for Drafts {
    fn fmt<W: fmt::Write>(&self, f: &mut fmt::Formatter<W>) -> fmt::Result {
        let Drafts {
            lists,
            done,
            delivered,
            read,
            released,
            misplaced,
            calls,
        } = self;
        write!(
            f,
            "{lists} lists, {done} ok, {delivered} delivered, {read} of them read alike, "
        )?;
        write!(
            f,
            "{released} released, {misplaced} misplaced; calls: {calls}"
        )
    }
}
