// The second station reads the key in its own order, loads it, and drafts the message again for its
// archive.
use crate::fault::Fault;
use crate::first::Message;
use crate::order::reordered;
use crate::part::front;
use crate::stations::{FIRST_SHEET, ROOM, SECOND_SHEET, Trust};
use crate::tell;
use exchange::redraft;
use profile::Sheet;
use reader::read;
use std::io;
use walk::{Part, lookup};
use wire::{MOST_PAYLOADS, Row, Slot};

fn tell_part(rt: &HostRuntime, slot: Slot, part: Part<'_>) -> io::Result<()> {
    let Part { bytes, place } = part;
    println!(rt; "It loads {slot} from byte {place}.")?;
    tell::bytes(rt, "The payload has", bytes)
}

// The encapsulated key and its parameters, wherever they stand.
fn load(rt: &HostRuntime, message: &[u8], rows: &[Row]) -> Result<(), Fault> {
    for row in rows {
        match Slot::try_from(row.slot) {
            Ok(slot @ (Slot::Sakke | Slot::ExtParams)) => {
                tell_part(rt, slot, lookup(message, row)?)?
            }
            _ => {}
        }
    }
    Ok(())
}

// Under the sheet of the first station, which wants another order, and under its own.
fn read_twice(
    rt: &HostRuntime,
    message: &[u8],
    rows: &mut [Row],
    sheet: &Sheet,
    list: &Trust,
) -> Result<(), Fault> {
    println!(rt; "The second station reads it under the sheet of the first.")?;
    let other = Sheet::parse(FIRST_SHEET.as_bytes())?;
    let refused = read(message, rows, &other, list);
    tell::reading(rt, refused, rows)?;
    println!(rt; "The second station reads it under its own sheet.")?;
    let accepted = read(message, rows, sheet, list);
    tell::reading(rt, accepted, rows)?;
    Ok(())
}

/// The second station's part: the message for it is drafted, refused under the sheet of the first,
/// read under its own, loaded and drafted again.
pub fn second(rt: &HostRuntime, first: &Message, list: &Trust) -> Result<(), Fault> {
    let sheet = Sheet::parse(SECOND_SHEET.as_bytes())?;
    let mut buffer = [0xff; ROOM];
    let mut rows = [Row::BLANK; MOST_PAYLOADS];
    let mut archive = [0xff; ROOM];
    println!(rt; "The group server drafts the same key for the second station, SAKKE first.")?;
    let length = reordered(rt, first, &sheet, &mut buffer)?;
    let message = front(&buffer, length);
    tell::bytes(rt, "The message has", message)?;
    read_twice(rt, message, &mut rows, &sheet, list)?;
    load(rt, message, &rows)?;
    let again = redraft(message, &sheet, list, &mut archive);
    tell::archived(rt, again, message, &archive)?;
    Ok(())
}
