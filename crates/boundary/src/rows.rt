// Rows as bytes, and the numbers that a call hands out.
ghost use Rattle.std.specs.Prelude.{◌≡◌, ◌*◌, ◌≤◌, ◌++◌, length, drop, IfOk};
ghost use Rattle.boundary.specs.Outcomes.{narrowed, fault_told};
ghost use Rattle.boundary.specs.Rows.{pair, row_bytes, rows_bytes, Ends};
ghost use Rattle.boundary.specs.Hands.{numbers, Hands};

use crate::fault::Fault;
use wire::{MOST_PAYLOADS, Row, Walked};

/// How many bytes a row is.
pub const ROW_BYTES: usize = 6;

/// How many bytes a table of rows is.
pub const TABLE_BYTES: usize = ROW_BYTES * MOST_PAYLOADS;

// A number in 32 bits.
pub(crate) fn narrow(n: usize) -> u32
    ensures { result ≡ narrowed n }
{
    u32::try_from(n).unwrap_or(u32::MAX)
}

// The last two bytes of a number. A message is no longer, so that nothing is lost; and two bytes
// are written at once.
fn pair(n: u32) -> [u8; 2]
    ensures { result ≡ pair n }
{
    ((n % 65536) as u16).to_be_bytes()
}

fn spelled(row: &Row) -> [u8; ROW_BYTES]
    ensures { result ≡ row_bytes row.now }
{
    let [start, start_low] = pair(row.start);
    let [length, length_low] = pair(row.length);
    [row.code, row.slot, start, start_low, length, length_low]
}

// Rows, one after the other.
fn spell(table: &[Row], bytes: &mut [u8])
    requires { length table.now * 6 ≤ length bytes.old }
    ensures { bytes.new ≡ rows_bytes table.now ++ drop (length table.now * 6) bytes.old }
{
    for (i, row) in table.iter().enumerate() {
        let at = i * ROW_BYTES;
        bytes[at..at + ROW_BYTES].copy_from_slice(&spelled(row));
    }
}

// Tells why a call comes to nothing, and returns its number.
pub(crate) fn refuse(fault: Fault, place: &mut u32, detail: &mut u32) -> u32
    ensures code { result ≡ (fault_told fault).number }
    ensures place { place.new ≡ narrowed (fault_told fault).place }
    ensures detail { detail.new ≡ (fault_told fault).detail }
{
    let told = fault.report();
    *place = narrow(told.place);
    *detail = told.detail as u32;
    told.number as u32
}

// Hands out what a call comes to.
pub(crate) fn hand_out(
    outcome: Result<Walked, Fault>,
    table: &[Row; MOST_PAYLOADS],
    rows: &mut [u8],
    count: &mut u32,
    header: &mut u32,
    span: &mut u32,
    place: &mut u32,
    detail: &mut u32,
) -> u32
    requires room { IfOk outcome (λ w. 144 ≤ length rows.old) }
    requires blank { IfOk outcome (λ w. Ends w.count table.now) }
    ensures { Hands outcome table.now rows.old rows.new
        (numbers count.old header.old span.old place.old detail.old)
        (numbers count.new header.new span.new place.new detail.new) result }
{
    match outcome {
        Ok(walked) => {
            // The others are blank: zeros.
            let told = walked.count * ROW_BYTES;
            spell(&table[..walked.count], rows);
            rows[told..TABLE_BYTES].fill(0);
            *count = narrow(walked.count);
            *header = narrow(walked.header);
            *span = narrow(walked.span);
            0
        }
        Err(fault) => refuse(fault, place, detail),
    }
}
