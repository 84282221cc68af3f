// What the tests draft by: a header without sessions, a payload and a key.
use drafter::Open;
use plain::Head;
use profile::{Sheet, SheetRefusal};
use verifier::KeyTag;
use wire::Refusal;

pub(crate) const KEY: KeyTag = KeyTag { key: 0 };

// The body of a RAND that sheets take.
pub(crate) const RAND: [u8; 17] = [16, 0, 1, 2, 3, 4, 5, 6, 7, 8, 9, 10, 11, 12, 13, 14, 15];

pub(crate) fn head() -> Head<'static> {
    Head {
        byte3: 1,
        csb: 0x2000_0001,
        cs: 0,
        map_type: 1,
        map_info: &[],
    }
}

// Sets a header, field by field.
pub(crate) fn set(open: &mut Open<'_>, head: &Head<'_>) -> Result<(), Refusal> {
    open.head(head.byte3, head.csb, head.cs, head.map_type, head.map_info)
}

// One RAND at most, and SIGN.
pub(crate) fn sheet() -> Result<Sheet, SheetRefusal> {
    Sheet::parse(b"slot least most rank\n2 0 1 0\n11 1 1 1\n")
}

// The bytes of that header, where nothing follows it.
pub(crate) const HEADER: [u8; 10] = [1, 26, 0, 1, 32, 0, 0, 1, 0, 1];

// That header and SIGN, with a signature of four bytes.
pub(crate) fn message(signature: [u8; 4]) -> [u8; 16] {
    let [a, b, c, d] = signature;
    [1, 26, 4, 1, 32, 0, 0, 1, 0, 1, 0x20, 4, a, b, c, d]
}

// A buffer begins with bytes, and has zeros after them up to the 8,192nd, and `rest` from there
// on.
pub(crate) fn holds(buffer: &[u8], bytes: &[u8], rest: u8) -> bool {
    let (counted, past) = buffer.split_at(buffer.len().min(8192));
    counted.starts_with(bytes)
        && counted.iter().skip(bytes.len()).all(|byte| *byte == 0)
        && past.iter().all(|byte| *byte == rest)
}
