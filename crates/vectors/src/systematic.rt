// What is asked in every way: times, parts, sheets, and random messages under random sheets.
use crate::generator::Generator;
use crate::library::Library;
use crate::records::{arranged, signed};
use crate::tally::Tally;
use crate::vector::run;
use corpus::{Decoder, Second, Station};
use second::Message;
use std::alloc::{AllocError, Global};

// Any payloads, in any order.
pub const WIDE: &[u8] = b"slot least most rank
1 0 24 0
2 0 24 0
3 0 24 0
4 0 24 0
5 0 24 0
6 0 24 0
7 0 24 0
8 0 24 0
9 0 24 0
10 0 24 0
11 0 24 0
12 0 24 0
";

// T payloads of every length to 12, of which each byte is one of some values.
pub fn times(alloc: Global) -> Result<Tally, AllocError> {
    let mut tally = Tally::new(alloc);
    for ts_type in 0..=255 {
        for byte in [0, 1, 128, 255] {
            let mut payload = [byte; 12];
            payload[1] = ts_type;
            for length in 0..=12 {
                let payload = &payload[..length];
                let ours = Library.time(alloc, payload)?;
                let theirs = Second.time(alloc, payload)?;
                tally.compare(alloc, &ours, &theirs, true, payload)?;
            }
        }
    }
    Ok(tally)
}

// Starts and lengths around a message of 13 bytes, and those near the ends of two and of four bytes.
const PLACES: [u32; 9] = [
    0,
    10,
    12,
    13,
    14,
    65535,
    0x7fff_ffff,
    0xffff_fff3,
    0xffff_ffff,
];

// Parts of a message by every start and length of those.
pub fn parts(alloc: Global, message: &[u8]) -> Result<Tally, AllocError> {
    let mut tally = Tally::new(alloc);
    for start in PLACES {
        for length in PLACES {
            let ours = Library.part(alloc, message, start, length)?;
            let theirs = Second.part(alloc, message, start, length)?;
            tally.compare(alloc, &ours, &theirs, true, message)?;
        }
    }
    Ok(tally)
}

fn sheet(alloc: Global, tally: &mut Tally, text: &[u8]) -> Result<(), AllocError> {
    let ours = Library.sheet(alloc, text)?;
    let theirs = Second.sheet(alloc, text)?;
    tally.compare(alloc, &ours, &theirs, true, text)
}

fn ranked(
    alloc: Global,
    tally: &mut Tally,
    slot: usize,
    least: usize,
    most: usize,
) -> Result<(), AllocError> {
    for rank in [0, 1, 9, 10, 24, 25, 99] {
        let text = format!(in alloc; "slot least most rank\n{slot} {least} {most} {rank}\n")?;
        sheet(alloc, tally, text.as_bytes())?;
    }
    Ok(())
}

// Sheets of one line, with every choice of numbers at their edges.
pub fn lines(alloc: Global) -> Result<Tally, AllocError> {
    let mut tally = Tally::new(alloc);
    for slot in [0, 1, 2, 9, 10, 11, 12, 13, 99] {
        for least in [0, 1, 2, 9, 10, 24, 25] {
            for most in [0, 1, 2, 9, 10, 24, 25] {
                ranked(alloc, &mut tally, slot, least, most)?;
            }
        }
    }
    Ok(tally)
}

// A sheet of all slots, cut after every byte, and each byte changed to those that others have.
pub fn sheets(alloc: Global) -> Result<Tally, AllocError> {
    let mut tally = Tally::new(alloc);
    for at in 0..=WIDE.len() {
        sheet(alloc, &mut tally, &WIDE[..at])?;
        for byte in *b"\n\r 0123456789/:a-" {
            let mut text = Vec::from_slice(alloc, WIDE)?;
            if let Some(place) = text.get_mut(at) {
                *place = byte;
            }
            sheet(alloc, &mut tally, &text)?;
        }
    }
    Ok(tally)
}

// A sheet that asks little of most slots.
fn random_sheet(alloc: Global, generator: &mut Generator) -> Result<Vec<u8>, AllocError> {
    let mut text = Vec::from_slice(alloc, b"slot least most rank\n")?;
    for slot in 1..=12 {
        let odd = generator.below(100);
        let least = if odd < 3 { 1 + odd } else { 0 };
        let most = if odd > 85 { odd - 86 } else { 24 };
        let rank = generator.one_of(&[0, 0, 0, 0, 0, 0, 0, 0, 0, 1, 23, 24], 0);
        let line = format!(in alloc; "{slot} {least} {most} {rank}\n")?;
        text.extend_from_slice(line.as_bytes())?;
    }
    Ok(text)
}

// So many random choices of the payloads of a message, few or up to 23, each under a random sheet.
pub fn random_messages(alloc: Global, message: &Message, count: u64) -> Result<Tally, AllocError> {
    let mut tally = Tally::new(alloc);
    for seed in 0..count {
        let mut generator = Generator::new(seed);
        let station = Station {
            profile: random_sheet(alloc, &mut generator)?,
            key: seed,
            trusted: Vec::new(alloc),
        };
        let most = generator.one_of(&[3, 3, 6, 12, 25], 3);
        let kinds = 1 + generator.below(message.payloads.len());
        let mut order = Vec::new(alloc);
        for _ in 0..generator.below(most) {
            order.push(generator.below(kinds))?;
        }
        let bytes = signed(alloc, &arranged(alloc, message, &order)?, seed)?;
        run(alloc, &mut tally, &bytes, Some(&station))?;
    }
    Ok(tally)
}
