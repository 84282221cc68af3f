// Groups of tests, and what the tests of each have in common.
use crate::decoder::Station;
use crate::malformed::Malformed;
use crate::member::{byte_strings, list, size, text};
use serde_json::Value;
use std::alloc::Global;

/// What the tests of a group ask for.
#[derive(Clone, Copy, PartialEq, Eq)]
pub enum Kind {
    Walk,
    Read,
    Lookup,
    Time,
    Sheet,
    KeyTag,
    TrustList,
    Draft,
}

impl Kind {
    fn of(name: &str) -> Option<Kind> {
        match name {
            "Walk" => Some(Kind::Walk),
            "Read" => Some(Kind::Read),
            "Lookup" => Some(Kind::Lookup),
            "Time" => Some(Kind::Time),
            "Sheet" => Some(Kind::Sheet),
            "KeyTag" => Some(Kind::KeyTag),
            "TrustList" => Some(Kind::TrustList),
            "Draft" => Some(Kind::Draft),
            _ => None,
        }
    }
}

/// Tests of one kind, and what they have in common.
#[derive(Drop)]
pub struct Group<'a> {
    pub kind: Kind,
    /// How many rows are lent.
    pub rows: usize,
    pub station: Option<Station>,
    pub tests: &'a [Value],
}

fn station(alloc: Global, group: &Value) -> Result<Station, Malformed> {
    let key = u64::from_str_radix(text(group, "key")?, 16).map_err(|_| Malformed::Name("key"))?;
    Ok(Station {
        profile: Vec::from_slice(alloc, text(group, "profile")?.as_bytes())?,
        key,
        trusted: byte_strings(alloc, group, "trusted")?,
    })
}

fn group_of<'a>(alloc: Global, group: &'a Value) -> Result<Group<'a>, Malformed> {
    let kind = Kind::of(text(group, "type")?).ok_or(Malformed::Name("type"))?;
    let (rows, station) = match kind {
        Kind::Walk => (size(group, "rows")?, None),
        Kind::Read => (size(group, "rows")?, Some(station(alloc, group)?)),
        _ => (0, None),
    };
    Ok(Group {
        kind,
        rows,
        station,
        tests: list(group, "tests")?,
    })
}

/// The groups of a file.
pub fn groups<'a>(alloc: Global, file: &'a Value) -> Result<Vec<Group<'a>>, Malformed> {
    let mut groups = Vec::new(alloc);
    for each in list(file, "testGroups")? {
        groups.push(group_of(alloc, each)?)?;
    }
    Ok(groups)
}
