// The kinds of payload: their codes, how long a body is by its own lengths, and the rule inside it.

/// The code of SIGN, which is no `Kind`: it ends the chain, and the records hold it apart.
pub const SIGN: u8 = 4;

/// The most payloads of a message, SIGN among them.
pub const MOST_PAYLOADS: usize = 24;

/// A kind of payload that may stand before SIGN.
#[derive(Clone, Copy, Debug, PartialEq, Eq)]
pub enum Kind {
    Time,
    Rand,
    Idr,
    Policy,
    Sakke,
    Extension,
}

/// The byte at `index`, or 0 where `bytes` ends before it.
pub fn byte_or_zero(bytes: &[u8], index: usize) -> u8 {
    bytes.get(index).copied().unwrap_or(0)
}

/// The number in the two bytes from `index` on, each 0 where `bytes` ends before it.
pub fn pair_or_zero(bytes: &[u8], index: u16) -> u16 {
    let high = byte_or_zero(bytes, usize::from(index));
    let low = byte_or_zero(bytes, usize::from(index) + 1);
    u16::from_be_bytes([high, low])
}

impl Kind {
    pub fn of(code: u8) -> Option<Kind> {
        match code {
            5 => Some(Kind::Time),
            11 => Some(Kind::Rand),
            14 => Some(Kind::Idr),
            10 => Some(Kind::Policy),
            26 => Some(Kind::Sakke),
            21 => Some(Kind::Extension),
            _ => None,
        }
    }

    /// How long the body at the front of `rest` is by its own length field.
    pub fn extent(self, rest: &[u8]) -> usize {
        match self {
            Kind::Time => 9,
            Kind::Rand => 1 + usize::from(byte_or_zero(rest, 0)),
            Kind::Idr | Kind::Policy | Kind::Sakke => 4 + usize::from(pair_or_zero(rest, 2)),
            Kind::Extension => 3 + usize::from(pair_or_zero(rest, 1)),
        }
    }

    /// Whether a body that is all there keeps the rule inside.
    pub fn keeps_rule(self, body: &[u8]) -> bool {
        match (self, body) {
            (Kind::Time, [ts_type, ..]) => *ts_type == 0,
            (Kind::Policy, [_, _, _, _, params @ ..]) => are_whole_items(params),
            (Kind::Extension, [6, _, _, inner @ ..]) => is_one_sakke(inner),
            _ => true,
        }
    }
}

/// Whether `params` are items one after the other, each a type, a length and a value of that
/// length.
fn are_whole_items(params: &[u8]) -> bool {
    let mut rest = params;
    while let [_, length, values @ ..] = rest {
        let length = usize::from(*length);
        if length > values.len() {
            return false;
        }
        rest = &values[length..];
    }
    rest.is_empty()
}

/// Whether `inner` is exactly one SAKKE payload, its next-payload byte included.
fn is_one_sakke(inner: &[u8]) -> bool {
    match inner {
        [_, body @ ..] => Kind::Sakke.extent(body) == body.len(),
        [] => false,
    }
}
