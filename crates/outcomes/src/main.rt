// Prints what the second decoder answers to the tests of corpus files, a line for each test, or for each
// call of a draft. The outcomes of the published files are made by it.
#![tactic(auto)]

use anyhow::bail;
use corpus::{Group, Kind, Second, Step, ask, groups, list_of, steps};
use hex::encode;
use second::Fault;
use second::draft::Answer;
use serde_json::Value;
use std::{env, fs, io};

fn tell_answer(rt: &HostRuntime, answer: Answer) -> io::Result<()> {
    match answer {
        Answer::Done => print!(rt; "ok"),
        Answer::Length(length) => print!(rt; "length {length}"),
        Answer::Misplaced => print!(rt; "misplaced"),
        Answer::Refused(fault) => {
            let Fault {
                number,
                place,
                detail,
            } = fault;
            print!(rt; "refused {number} {place} {detail}")
        }
    }
}

fn tell_steps(rt: &HostRuntime, steps: &[Step]) -> io::Result<()> {
    for step in steps {
        tell_answer(rt, step.answer)?;
        let encoding = encode(rt.alloc(), &step.encoding)?;
        let span = encode(rt.alloc(), &step.span)?;
        println!(rt; ";{encoding};{span}")?;
    }
    Ok(())
}

fn tell_group(rt: &HostRuntime, group: &Group<'_>) -> anyhow::Result<()> {
    for test in group.tests {
        if group.kind == Kind::Draft {
            let list = list_of(rt.alloc(), test)?;
            tell_steps(rt, &steps(rt.alloc(), &list)?)?;
        } else {
            let answer = ask(&Second, rt.alloc(), group, test)?;
            println!(rt; "{answer}")?;
        }
    }
    Ok(())
}

fn tell_file(rt: &HostRuntime, name: &str) -> anyhow::Result<()> {
    let file = Value::from_slice(rt.alloc(), &fs::read(rt, name)?)?;
    for group in &groups(rt.alloc(), &file)? {
        tell_group(rt, group)?;
    }
    Ok(())
}

fn main(rt: HostRuntime) -> anyhow::Result<()> {
    let names: Vec<String> = env::args(&rt)?.skip(1).collect(rt.alloc())?;
    if names.is_empty() {
        eprintln!(rt; "usage: outcomes FILE..")?;
        bail!("no file is named");
    }
    for name in &names {
        tell_file(&rt, name)?;
    }
    Ok(())
}
