// The payloads of a message, one after the other, up to SIGN.
ghost use Rattle.std.specs.Prelude.{◌≡◌, ◌+◌, ◌≤◌, length, drop, IfOk};
ghost use Rattle.wire.specs.Answers.{map_ok};
ghost use Rattle.wire.specs.Kinds.{next_byte_length};
ghost use Rattle.wire.specs.Limits.{fixed_header, longest_message};
ghost use Rattle.wire.specs.Numbered.{slot_number};
ghost use Rattle.wire.specs.Rows.{slot_of};
ghost use Rattle.wire.specs.Extents.{body_at};
ghost use Rattle.wire.specs.Walking.{kind_answer};
ghost use Rattle.walk.specs.Scans.{scan_answer, links_of, IsPayloadAt, TableHolds, Inside};

use layout::body_length;
use wire::{Kind, MOST_PAYLOADS, Refusal, Row, Slot};

// The number of payloads with SIGN, and where SIGN begins and ends.
#[derive(Clone, Copy)]
pub(crate) struct Links {
    pub(crate) count: usize,
    pub(crate) sign: usize,
    pub(crate) end: usize,
}

fn kind_of(code: u8, naming: usize) -> Result<Kind, Refusal>
    ensures { result ≡ kind_answer code naming }
{
    Kind::of(code).ok_or(Refusal::UnknownCode(naming))
}

// By the kind and the first byte of the body: a role of an IDR, a type of an EXT.
fn slot(kind: Kind, value: u8) -> Slot
    ensures { slot_number result ≡ slot_of kind value }
{
    match (kind, value) {
        (Kind::T, _) => Slot::T,
        (Kind::Rand, _) => Slot::Rand,
        (Kind::Idr, 1) => Slot::Idri,
        (Kind::Idr, 2) => Slot::Idrr,
        (Kind::Idr, 6) => Slot::Idrkmsi,
        (Kind::Idr, 7) => Slot::Idrkmsr,
        (Kind::Sp, _) => Slot::Sp,
        (Kind::Sakke, _) => Slot::Sakke,
        (Kind::Ext, 6) => Slot::ExtSakke,
        (Kind::Ext, 7) => Slot::ExtParams,
        (Kind::Idr | Kind::Ext, _) => Slot::Other,
        (Kind::Sign, _) => Slot::Sign,
    }
}

// The length of the payload at `at`, its next-payload byte included.
fn payload(message: &[u8], kind: Kind, at: usize) -> Result<usize, Refusal>
    requires { at ≤ length message.now }
    ensures answer { result
        ≡ map_ok (λ p. next_byte_length kind + length p)
        (body_at kind at (drop (next_byte_length kind) (drop at message.now))) }
    ensures within { IfOk result (λ n. (2 ≤ n) × (at + n ≤ length message.now)) }
{
    // SIGN on a way of its own, which is faster than one for all with 0 or 1 byte before the body.
    if kind == Kind::Sign {
        return body_length(kind, at, &message[at..]);
    }
    let rest = message.get(at + 1..).ok_or(Refusal::PayloadCut(at))?;
    Ok(1 + body_length(kind, at, rest)?)
}

// What a payload is found to be: the numbers of its row but the start.
#[derive(Clone, Copy)]
pub(crate) struct Found {
    pub(crate) code: u8,
    pub(crate) slot: u8,
    pub(crate) length: usize,
}

// The payload at `at`.
fn find(message: &[u8], kind: Kind, at: usize) -> Result<Found, Refusal>
    requires { at ≤ length message.now }
    ensures answer { map_ok (λ f. f.length) result
        ≡ map_ok (λ p. next_byte_length kind + length p)
        (body_at kind at (drop (next_byte_length kind) (drop at message.now))) }
    ensures found { IfOk result (IsPayloadAt message.now kind at) }
{
    let length = payload(message, kind, at)?;
    Ok(Found {
        code: kind.code(),
        slot: slot(kind, message[at + 1]).number(),
        length,
    })
}

// The same by an arm for each kind: in each the compiler knows the kind, so that one jump is left
// for length, rule, code and slot.
fn find_by_kind(message: &[u8], kind: Kind, at: usize) -> Result<Found, Refusal>
    requires { at ≤ length message.now }
    ensures answer { map_ok (λ f. f.length) result
        ≡ map_ok (λ p. next_byte_length kind + length p)
        (body_at kind at (drop (next_byte_length kind) (drop at message.now))) }
    ensures found { IfOk result (IsPayloadAt message.now kind at) }
{
    match kind {
        Kind::T => find(message, Kind::T, at),
        Kind::Rand => find(message, Kind::Rand, at),
        Kind::Idr => find(message, Kind::Idr, at),
        Kind::Sp => find(message, Kind::Sp, at),
        Kind::Sakke => find(message, Kind::Sakke, at),
        Kind::Ext => find(message, Kind::Ext, at),
        Kind::Sign => find(message, Kind::Sign, at),
    }
}

// The rows of the payloads from a place on go into the table.
pub(crate) fn chain(
    message: &[u8],
    from: usize,
    table: &mut [Row; MOST_PAYLOADS],
) -> Result<Links, Refusal>
    requires { (fixed_header ≤ from) × ((from ≤ length message.now)
        × (length message.now ≤ longest_message)) }
    ensures answer { result ≡ map_ok links_of (scan_answer message.now from) }
    ensures rows { TableHolds (scan_answer message.now from) table.new }
    // The rows after them are as they were.
    ensures others { IfOk result (λ l. drop l.count table.new ≡ drop l.count table.old) }
    ensures within { IfOk result (Inside (length message.now)) }
{
    // Byte 2 of the header names the first payload.
    let mut naming = 2;
    let mut at = from;
    for (i, row) in table.iter_mut().enumerate() {
        let kind = kind_of(message[naming], naming)?;
        let found = find_by_kind(message, kind, at)?;
        *row = Row {
            code: found.code,
            slot: found.slot,
            start: at as u32,
            length: found.length as u32,
        };
        if kind == Kind::Sign {
            return Ok(Links {
                count: i + 1,
                sign: at,
                end: at + found.length,
            });
        }
        naming = at;
        at += found.length;
    }
    kind_of(message[naming], naming)?;
    Err(Refusal::ExtraPayload(at))
}
