// The records of a message, and what a walk over its bytes tells besides.
use crate::slots::slot_of;

/// A payload before SIGN. The body is all of it after its next-payload byte.
#[derive(Debug, PartialEq, Eq, Drop)]
pub struct Payload {
    pub code: u8,
    pub body: Vec<u8>,
}

/// The records of a message.
#[derive(Debug, PartialEq, Eq, Drop)]
pub struct Message {
    pub byte3: u8,
    pub csb: u32,
    pub cs: u8,
    pub map_type: u8,
    pub map_info: Vec<u8>,
    pub payloads: Vec<Payload>,
    pub sign_type: u8,
    pub signature: Vec<u8>,
}

/// Where a payload stands. Start and length take in the next-payload byte.
#[derive(Clone, Copy, Debug, PartialEq, Eq)]
pub struct Row {
    pub code: u8,
    pub slot: u8,
    pub start: usize,
    pub length: usize,
}

/// A message that was read to its end: its records, a row for each payload (SIGN last), the lengths
/// of the header and of the span, and the signer.
#[derive(Debug, PartialEq, Eq, Drop)]
pub struct Decoded {
    pub message: Message,
    pub rows: Vec<Row>,
    pub header: usize,
    pub span: usize,
    pub signer: Vec<u8>,
}

impl Payload {
    pub fn slot(&self) -> u8 {
        slot_of(self.code, self.body.as_slice())
    }

    /// How long the payload is in a message, its next-payload byte included.
    pub fn length(&self) -> usize {
        self.body.len().saturating_add(1)
    }
}

impl Message {
    pub fn header_length(&self) -> usize {
        self.map_info.len().saturating_add(10)
    }

    /// The length of the payloads before SIGN.
    pub fn payloads_length(&self) -> usize {
        self.payloads.iter().fold(
            0,
            |sum: usize, payload| sum.saturating_add(payload.length()),
        )
    }

    /// The length of header and payloads, without SIGN.
    pub fn open_length(&self) -> usize {
        self.header_length().saturating_add(self.payloads_length())
    }

    /// The length of the message, SIGN included.
    pub fn length(&self) -> usize {
        self.open_length()
            .saturating_add(2)
            .saturating_add(self.signature.len())
    }
}
