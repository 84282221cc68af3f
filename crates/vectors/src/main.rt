// Runs the corpus, and what is computed from it, through the library and through a second decoder that was
// made without it, and tells where the two or the corpus differ.
#![tactic(auto)]

mod drafts;
mod everything;
mod families;
mod generator;
mod library;
mod lists;
mod orders;
mod plans;
mod records;
mod report;
mod systematic;
mod tally;
mod tests;
mod variants;
mod vector;

use corpus::{Group, Kind, bytes, groups};
use drafts::Drafts;
use families::{Others, drafts_of, named, records, systematic};
use plans::families;
use report::Report;
use serde_json::Value;
use std::fs;
use tally::Tally;
use tests::{run_draft, run_test};

const FILES: [&str; 6] = [
    "walk.json",
    "read.json",
    "sheets.json",
    "times.json",
    "identities.json",
    "drafts.json",
];

fn file(rt: &HostRuntime, name: &str) -> anyhow::Result<Value> {
    Ok(Value::from_slice(rt.alloc(), &fs::read(rt, name)?)?)
}

fn run_group(
    rt: &HostRuntime,
    tally: &mut Tally,
    drafts: &mut Drafts,
    group: &Group<'_>,
) -> anyhow::Result<()> {
    for test in group.tests {
        if group.kind == Kind::Draft {
            run_draft(rt.alloc(), drafts, test)?;
        } else if let Some(line) = run_test(rt.alloc(), tally, group, test)? {
            println!(rt; "{line}")?;
        }
    }
    Ok(())
}

// The tests of a file.
fn run_file(report: &mut Report<'_>, name: &str) -> anyhow::Result<()> {
    let rt = report.rt;
    let file = file(rt, name)?;
    let mut tally = Tally::new(rt.alloc());
    let mut drafts = Drafts::new(rt.alloc());
    for group in &groups(rt.alloc(), &file)? {
        run_group(rt, &mut tally, &mut drafts, group)?;
    }
    if drafts.lists > 0 {
        report.drafts(name, &drafts)?;
    } else {
        report.family(name, &tally)?;
    }
    Ok(())
}

// What is computed from the messages of the corpus.
fn computed(report: &mut Report<'_>) -> anyhow::Result<()> {
    let rt = report.rt;
    let (walk, read) = (file(rt, "walk.json")?, file(rt, "read.json")?);
    let mut found = Vec::new(rt.alloc());
    let mut others = Others::new(rt.alloc());
    for file in [&walk, &read] {
        for group in &groups(rt.alloc(), file)? {
            if matches!(group.kind, Kind::Walk | Kind::Read) && group.rows == 24 {
                named(report, group)?;
                others.group(rt.alloc(), group)?;
                records(rt.alloc(), &mut found, group)?;
            }
        }
    }
    others.tell(report)?;
    systematic(report, &found)?;
    for family in &families() {
        drafts_of(report, family, &found)?;
    }
    Ok(())
}

fn main(rt: HostRuntime) -> anyhow::Result<()> {
    let totals = Tally::new(rt.alloc());
    let mut report = Report { rt: &rt, totals };
    for name in FILES {
        run_file(&mut report, name)?;
    }
    computed(&mut report)?;
    report.end()?;
    Ok(())
}
