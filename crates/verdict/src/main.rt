// Tells how a station reads recorded messages, under a profile or a sheet, a key and a trust list.
#![tactic(auto)]

mod arguments;
mod fault;
mod trust;

use anyhow::bail;
use arguments::{Arguments, Rules, parse};
use fault::Fault;
use profile::{AnyProfile, Sheet};
use reader::read;
use std::io::Read;
use std::{env, fs, io};
use trust::enter_all;
use verifier::{KeyTag, TrustList, Verifier};
use wire::{LONGEST, MOST_PAYLOADS, Row};

// One byte more than the longest message, so that a longer one is refused for its length.
const ENOUGH: u64 = LONGEST as u64 + 1;

const USAGE: &str =
    "usage: verdict (--profile csk|pck|gmk | --sheet FILE) --key HEX [--trust FILE] MESSAGE..
  --profile  one of the fixed profiles
  --sheet    a profile sheet
  --key      the key of the tag, 16 hexadecimal digits
  --trust    the signers that are trusted, one a line; any signer without it
prints a line for each message file, in order: FILE ok COUNT HEADER SPAN, FILE refused NUMBER PLACE DETAIL and why,
or FILE unreadable and why; a sheet or a trust list that is not taken gets its own such line, and nothing is read";

// As much of a message as tells whether it is too long.
fn message_in<'a>(rt: &HostRuntime, file: &'a str) -> Result<Vec<u8>, Fault<'a>> {
    let mut bytes = Vec::new(rt.alloc());
    fs::open(rt, file)
        .and_then(|open| open.take(ENOUGH).read_to_end(&mut bytes))
        .map_err(|error| Fault::Unreadable { file, error })?;
    Ok(bytes)
}

fn text_in<'a>(rt: &HostRuntime, file: &'a str) -> Result<Vec<u8>, Fault<'a>> {
    fs::read(rt, file).map_err(|error| Fault::Unreadable { file, error })
}

fn verdict<'a, V: Verifier>(
    rt: &HostRuntime,
    file: &'a str,
    profile: &AnyProfile,
    verifier: &V,
) -> Result<(), Fault<'a>> {
    let message = message_in(rt, file)?;
    let mut rows = [Row::BLANK; MOST_PAYLOADS];
    let walked = read(&message, &mut rows, profile, verifier).map_err(|refusal| Fault::Refused {
        file,
        refusal,
    })?;
    println!(rt; "{file} ok {walked}")?;
    Ok(())
}

// A line for a file that is not taken.
fn tell(rt: &HostRuntime, fault: Fault<'_>) -> io::Result<()> {
    match fault {
        Fault::Io(error) => Err(error),
        told => println!(rt; "{told}"),
    }
}

fn verdicts<V: Verifier>(
    rt: &HostRuntime,
    files: &[String],
    profile: &AnyProfile,
    verifier: &V,
) -> io::Result<()> {
    for file in files {
        if let Err(fault) = verdict(rt, file, profile, verifier) {
            tell(rt, fault)?;
        }
    }
    Ok(())
}

// The program draft reads a sheet by two lines of its own too, and tells a fault in other words.
fn chosen<'a>(rt: &HostRuntime, rules: Rules<'a>) -> Result<AnyProfile, Fault<'a>> {
    let file = match rules {
        Rules::Fixed(fixed) => return Ok(AnyProfile::Fixed(fixed)),
        Rules::Sheet(file) => file,
    };
    let text = text_in(rt, file)?;
    let sheet = Sheet::parse(&text).map_err(|refusal| Fault::SheetRefused { file, refusal })?;
    Ok(AnyProfile::Sheet(sheet))
}

fn trusting<'a>(
    rt: &HostRuntime,
    file: &'a str,
    tag: KeyTag,
) -> Result<TrustList<KeyTag>, Fault<'a>> {
    let text = text_in(rt, file)?;
    let mut list = TrustList::new(tag);
    enter_all(&mut list, file, &text)?;
    Ok(list)
}

fn run<'a>(rt: &HostRuntime, given: Arguments<'a>) -> Result<(), Fault<'a>> {
    let tag = KeyTag { key: given.key };
    let profile = chosen(rt, given.rules)?;
    match given.trust {
        None => verdicts(rt, given.files, &profile, &tag)?,
        Some(file) => {
            let list = trusting(rt, file, tag)?;
            verdicts(rt, given.files, &profile, &list)?
        }
    }
    Ok(())
}

fn main(rt: HostRuntime) -> anyhow::Result<()> {
    let words: Vec<String> = match env::args(&rt) {
        Ok(words) => words.skip(1).collect(rt.alloc())?,
        // A word that is not UTF-8 is none of the usage's, and no file is found by it.
        Err(error) if error.kind() == io::ErrorKind::InvalidData => Vec::new(rt.alloc()),
        Err(error) => return Err(error.into()),
    };
    let Some(given) = parse(&words) else {
        eprintln!(rt; "{}", USAGE)?;
        bail!("nothing was read");
    };
    if let Err(fault) = run(&rt, given) {
        tell(&rt, fault)?;
        bail!("nothing was read");
    }
    Ok(())
}
