// The profile that a close is given by name.
use crate::fault::Fault;
use profile::{AnyProfile, Sheet, SheetRefusal};
use script::Line;
use std::{fs, io};
use thiserror::Error;

// Why there is no such sheet.
#[derive(Debug, Drop, Error)]
enum NoSheet {
    #[error(transparent)]
    Refused(#[from] SheetRefusal),
    #[error(transparent)]
    Unreadable(#[from] io::Error),
}

// The program verdict reads a sheet by two lines of its own too: it tells a fault in other words,
// and programs share no crate.
fn sheet(rt: &HostRuntime, file: &str) -> Result<Sheet, NoSheet> {
    let text = fs::read(rt, file)?;
    Ok(Sheet::parse(&text)?)
}

// The sheet of a file; standard error tells why there is none.
fn sheet_of(rt: &HostRuntime, file: &str) -> Result<AnyProfile, Fault> {
    match sheet(rt, file) {
        Ok(sheet) => Ok(AnyProfile::Sheet(sheet)),
        Err(why) => {
            eprintln!(rt; "{file}: {why}")?;
            Err(Fault::NoCall)
        }
    }
}

// A fixed profile, or the sheet of a file.
fn profile_of(rt: &HostRuntime, name: &str) -> Result<AnyProfile, Fault> {
    if let Ok(fixed) = name.parse() {
        return Ok(AnyProfile::Fixed(fixed));
    }
    sheet_of(rt, name.strip_prefix("sheet:").ok_or(Fault::NoCall)?)
}

// The profile that a line names, if it is a close.
pub fn profile_in(rt: &HostRuntime, line: &Line<'_>) -> Result<Option<AnyProfile>, Fault> {
    match line {
        Line::Close { profile, .. } => Ok(Some(profile_of(rt, profile)?)),
        _ => Ok(None),
    }
}
