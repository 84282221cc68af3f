// Runs a script: a draft in a buffer of its own, and the calls on it, a call a line.
use crate::bytes::{scratch_for, spelled};
use crate::fault::Fault;
use crate::profiles::profile_in;
use drafter::{State, begin};
use plain::{Call, Reply};
use profile::AnyProfile;
use script::{Line, ReadLine, Room, parse};
use std::io;
use std::iter::Zip;
use std::ops::RangeInclusive;
use std::str::Lines;

// Prints an answer, and the encoding then in the buffer.
fn tell(rt: &HostRuntime, reply: Reply, encoding: &[u8]) -> io::Result<()> {
    match reply {
        Reply::Done => println!(rt; "ok")?,
        Reply::Delivered(length) | Reply::Released(length) => println!(rt; "ok {length}")?,
        Reply::Refused(refusal) => {
            let told = refusal.report();
            println!(rt; "refused {told}")?
        }
        Reply::Misplaced => println!(rt; "misplaced")?,
    }
    let encoding = spelled(rt, encoding)?;
    println!(rt; "{encoding}")
}

// The lines that are left, each with its number.
type Numbered<'a> = Zip<RangeInclusive<usize>, Lines<'a>>;

// A draft after a line, and why its call is not made or its answer not printed. A draft that may be
// out can't be let go, as withdraw or release alone spends it: so no `?` passes it, and what may
// fail gives it back.
type Obeyed<'a> = (State<'a>, Result<(), Fault>);

fn told<'a>(rt: &HostRuntime, state: State<'a>, reply: Reply) -> Obeyed<'a> {
    let printed = tell(rt, reply, state.bytes()).map_err(Fault::Io);
    (state, printed)
}

fn make<'a>(rt: &HostRuntime, state: State<'a>, call: &Call<'_, AnyProfile>) -> Obeyed<'a> {
    let (next, reply) = state.call(call);
    told(rt, next, reply)
}

// Makes the call that a line is, with its bytes in the scratch and the profile that it names.
fn make_line<'a>(
    rt: &HostRuntime,
    state: State<'a>,
    line: &ReadLine<'_>,
    scratch: &[u8],
) -> Obeyed<'a> {
    let profile = match profile_in(rt, &line.line) {
        Ok(profile) => profile,
        Err(fault) => return (state, Err(fault)),
    };
    match line.call(scratch, profile.as_ref()) {
        Some(call) => make(rt, state, &call),
        None => (state, Err(Fault::NoCall)),
    }
}

fn obey_in<'a>(
    rt: &HostRuntime,
    state: State<'a>,
    line: Line<'_>,
    scratch: &mut [u8],
) -> Obeyed<'a> {
    match line.read(scratch) {
        Ok(line) => make_line(rt, state, &line, scratch),
        Err(error) => (state, Err(error.into())),
    }
}

// A second begin is misplaced.
fn obey<'a>(rt: &HostRuntime, state: State<'a>, text: &str) -> Obeyed<'a> {
    let Some(line) = parse(text) else {
        return (state, Err(Fault::NoCall));
    };
    match line {
        Line::Blank => (state, Ok(())),
        Line::Begin(_) => told(rt, state, Reply::Misplaced),
        _ => match scratch_for(rt, line.spelled()) {
            Ok(mut scratch) => obey_in(rt, state, line, &mut scratch),
            Err(fault) => (state, Err(fault)),
        },
    }
}

fn obey_all<'a>(
    rt: &HostRuntime,
    mut state: State<'a>,
    lines: Numbered<'_>,
) -> (State<'a>, anyhow::Result<()>) {
    for (number, text) in lines {
        let (next, obeyed) = obey(rt, state, text);
        state = next;
        if let Err(fault) = obeyed {
            return (state, Err(fault.at_line(number, text)));
        }
    }
    (state, Ok(()))
}

// Before begin there is no draft, so that every call is misplaced.
fn before(rt: &HostRuntime, text: &str) -> Result<Option<Room>, Fault> {
    match parse(text).ok_or(Fault::NoCall)? {
        Line::Blank => {}
        Line::Begin(room) => return Ok(Some(room)),
        _ => tell(rt, Reply::Misplaced, &[])?,
    }
    Ok(None)
}

fn start(rt: &HostRuntime, lines: &mut Numbered<'_>) -> anyhow::Result<Option<Room>> {
    for (number, text) in lines {
        let begun = before(rt, text).map_err(|fault| fault.at_line(number, text))?;
        if begun.is_some() {
            return Ok(begun);
        }
    }
    Ok(None)
}

fn draft_by(rt: &HostRuntime, lines: Numbered<'_>, buffer: &mut [u8]) -> anyhow::Result<()> {
    let open = begin(buffer);
    tell(rt, Reply::Done, open.bytes())?;
    let (state, ended) = obey_all(rt, State::Open(open), lines);
    let _buffer = state.end();
    ended
}

// Makes the calls of the lines, up to one that is no call.
pub fn run(rt: &HostRuntime, text: &str) -> anyhow::Result<()> {
    let mut lines = (1..=usize::MAX).zip(text.lines());
    let Some(Room { length, fill }) = start(rt, &mut lines)? else {
        return Ok(());
    };
    // a lack of memory is told in the words of all other failures
    let mut buffer = vec![in rt.alloc(); fill; length].map_err(io::Error::from)?;
    draft_by(rt, lines, &mut buffer)
}
