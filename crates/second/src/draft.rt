// A plain draft: a message in the making, kept as records. After each call that changes them the
// whole encoding is made anew.
ghost use Rattle.std.specs.Prelude.{◌<◌, ◌≤◌, OnOk, vec_len};

use crate::encoding::{encode, encode_open};
use crate::fault::Fault;
use crate::judging::judge_records;
use crate::kind::{Kind, MOST_PAYLOADS};
use crate::message::{Message, Payload};
use crate::rules::Rules;
use crate::sessions::{is_lawful_map, sessions_length};
use crate::walk::MOST_BYTES;
use std::alloc::{AllocError, Global};

/// What a call on a draft answers.
#[derive(Clone, Copy, Debug, PartialEq, Eq)]
pub enum Answer {
    Done,
    Length(usize),
    Refused(Fault),
    Misplaced,
}

/// Which calls a draft takes.
#[derive(Clone, Copy)]
enum Stage {
    /// It takes edits.
    Open,
    /// It takes signatures. `carried` is what was wrong at close, and `delivered` is the length
    /// that the last signature gave, or 0.
    Out {
        carried: Option<Fault>,
        delivered: usize,
    },
    Ended,
}

/// A draft. After an `AllocError` it is of no further use.
#[derive(Drop)]
pub struct PlainDraft {
    alloc: Global,
    stage: Stage,
    /// Whether there is a header yet.
    has_head: bool,
    /// Whether SIGN stands.
    has_sign: bool,
    message: Message,
    encoding: Vec<u8>,
    /// How many bytes of the buffer count.
    counted: usize,
    buffer: Vec<u8>,
}

impl PlainDraft {
    /// A draft in a buffer that stands like this one.
    pub fn begin(alloc: Global, buffer: &[u8]) -> Result<PlainDraft, AllocError> {
        let message = Message {
            byte3: 0,
            csb: 0,
            cs: 0,
            map_type: 0,
            map_info: Vec::new(alloc),
            payloads: Vec::new(alloc),
            sign_type: 0,
            signature: Vec::new(alloc),
        };
        let mut draft = PlainDraft {
            alloc,
            stage: Stage::Open,
            has_head: false,
            has_sign: false,
            message,
            encoding: Vec::new(alloc),
            counted: buffer.len().min(MOST_BYTES),
            buffer: Vec::from_slice(alloc, buffer)?,
        };
        draft.settle()?;
        Ok(draft)
    }

    /// Sets the header and keeps the payloads.
    pub fn head(
        &mut self,
        byte3: u8,
        csb: u32,
        cs: u8,
        map_type: u8,
        map_info: &[u8],
    ) -> Result<Answer, AllocError> {
        if !self.is_open() {
            return Ok(Answer::Misplaced);
        }
        if let Err(fault) = self.check_head(cs, map_type, map_info) {
            return Ok(Answer::Refused(fault));
        }
        self.message.byte3 = byte3;
        self.message.csb = csb;
        self.message.cs = cs;
        self.message.map_type = map_type;
        self.message.map_info = Vec::from_slice(self.alloc, map_info)?;
        self.has_head = true;
        self.done()
    }

    /// Inserts a payload before the one at `position`.
    pub fn add(&mut self, position: usize, code: u8, body: &[u8]) -> Result<Answer, AllocError> {
        if !self.is_open() {
            return Ok(Answer::Misplaced);
        }
        if let Err(fault) = self.check_add(position, code, body) {
            return Ok(Answer::Refused(fault));
        }
        let payload = Payload {
            code,
            body: Vec::from_slice(self.alloc, body)?,
        };
        self.message.payloads.insert(position, payload)?;
        self.done()
    }

    /// Changes the payload at `position`.
    pub fn replace(
        &mut self,
        position: usize,
        code: u8,
        body: &[u8],
    ) -> Result<Answer, AllocError> {
        if !self.is_open() {
            return Ok(Answer::Misplaced);
        }
        if let Err(fault) = self.check_replace(position, code, body) {
            return Ok(Answer::Refused(fault));
        }
        let body = Vec::from_slice(self.alloc, body)?;
        self.message.payloads[position] = Payload { code, body };
        self.done()
    }

    /// Drops the payload at `position`.
    pub fn remove(&mut self, position: usize) -> Result<Answer, AllocError> {
        if !self.is_open() {
            return Ok(Answer::Misplaced);
        }
        if let Err(fault) = self.check_position(position, self.message.payloads.len()) {
            return Ok(Answer::Refused(fault));
        }
        self.message.payloads.remove(position);
        self.done()
    }

    /// Puts SIGN after the payloads, its signature all zeros, or carries what is wrong.
    pub fn close(
        &mut self,
        rules: &Rules,
        sign_type: u8,
        length: usize,
    ) -> Result<Answer, AllocError> {
        if !self.is_open() {
            return Ok(Answer::Misplaced);
        }
        let carried = match self.check_close(sign_type, length) {
            Err(fault) => Some(fault),
            Ok(()) => self.put_sign(rules, sign_type, length)?,
        };
        self.stage = Stage::Out {
            carried,
            delivered: 0,
        };
        self.done()
    }

    /// Puts a signature in its place.
    pub fn sign(&mut self, signature: &[u8]) -> Result<Answer, AllocError> {
        let Stage::Out { carried, .. } = self.stage else {
            return Ok(Answer::Misplaced);
        };
        if let Some(fault) = carried {
            return Ok(Answer::Refused(fault));
        }
        if signature.len() != self.message.signature.len() {
            return Ok(Answer::Refused(Fault::of(25)));
        }
        self.message.signature = Vec::from_slice(self.alloc, signature)?;
        let delivered = self.message.length();
        self.stage = Stage::Out { carried, delivered };
        self.settle()?;
        Ok(Answer::Length(delivered))
    }

    /// Takes SIGN off, if it stands.
    pub fn withdraw(&mut self) -> Result<Answer, AllocError> {
        let Stage::Out { .. } = self.stage else {
            return Ok(Answer::Misplaced);
        };
        self.take_sign_off();
        self.stage = Stage::Open;
        self.done()
    }

    /// Ends the draft. The records stay as they are.
    pub fn release(&mut self) -> Result<Answer, AllocError> {
        let Stage::Out { delivered, .. } = self.stage else {
            return Ok(Answer::Misplaced);
        };
        self.stage = Stage::Ended;
        Ok(Answer::Length(delivered))
    }

    /// The encoding of the records held; empty before head.
    pub fn encoding(&self) -> &[u8] {
        self.encoding.as_slice()
    }

    /// The whole buffer as it stands: the bytes that count, then those beyond.
    pub fn buffer(&self) -> &[u8] {
        self.buffer.as_slice()
    }

    /// What the signature is over; no bytes unless the draft is out and SIGN stands.
    pub fn span(&self) -> &[u8] {
        match self.stage {
            Stage::Out { .. } if self.has_sign => {
                let length = self.message.open_length().saturating_add(2);
                self.encoding.as_slice().get(..length).unwrap_or(&[])
            }
            _ => &[],
        }
    }

    /// The records held.
    pub fn message(&self) -> &Message {
        &self.message
    }

    /// Whether it takes edits; else it takes signatures, or it has ended.
    pub fn is_open(&self) -> bool {
        matches!(self.stage, Stage::Open)
    }

    /// What refuses a head: 6, 7, 8, 21, 23.
    fn check_head(&self, cs: u8, map_type: u8, map_info: &[u8]) -> Result<(), Fault> {
        if !is_lawful_map(map_type, cs) {
            return Err(Fault::of(6));
        }
        match sessions_length(cs, map_info, 0) {
            Err(fault) => Err(Fault::of(fault.number)),
            Ok(length) if length != map_info.len() => Err(Fault::of(21)),
            Ok(length) => {
                let header = length.saturating_add(10);
                self.check_size(header.saturating_add(self.message.payloads_length()))
            }
        }
    }

    /// What refuses an add: 19, 20, 9, 11, 12, 13, 22, 23.
    fn check_add(&self, position: usize, code: u8, body: &[u8]) -> Result<(), Fault>
        ensures { OnOk result (position ≤ vec_len self.now.message.payloads) }
    {
        let count = self.message.payloads.len();
        self.check_position(position, count.saturating_add(1))?;
        check_body(code, body)?;
        // SIGN is a payload too.
        if count.saturating_add(1) >= MOST_PAYLOADS {
            return Err(Fault::of(22));
        }
        let length = self.message.open_length().saturating_add(1);
        self.check_size(length.saturating_add(body.len()))?;
        Ok(())
    }

    /// What refuses a replace: 19, 20, 9, 11, 12, 13, 23.
    fn check_replace(&self, position: usize, code: u8, body: &[u8]) -> Result<(), Fault>
        ensures { OnOk result (position < vec_len self.now.message.payloads) }
    {
        self.check_position(position, self.message.payloads.len())?;
        check_body(code, body)?;
        let replaced = self.message.payloads[position].body.len();
        let length = self.message.open_length().saturating_sub(replaced);
        self.check_size(length.saturating_add(body.len()))?;
        Ok(())
    }

    /// What refuses a position that is not below `end`: 19, 20.
    fn check_position(&self, position: usize, end: usize) -> Result<(), Fault>
        ensures { OnOk result (position < end) }
    {
        if !self.has_head {
            return Err(Fault::of(19));
        }
        if position >= end {
            return Err(Fault::of(20));
        }
        Ok(())
    }

    /// What is wrong at a close before the profile is asked: 19, 24, 23.
    fn check_close(&self, sign_type: u8, length: usize) -> Result<(), Fault> {
        if !self.has_head {
            return Err(Fault::of(19));
        }
        if sign_type > 15 || length < 1 || length > 4095 {
            return Err(Fault::of(24));
        }
        let with_head = self.message.open_length().saturating_add(2);
        self.check_size(with_head.saturating_add(length))
    }

    /// Whether an encoding of this length fits into the bytes that count: 23.
    fn check_size(&self, length: usize) -> Result<(), Fault> {
        if length > self.counted {
            return Err(Fault::of(23));
        }
        Ok(())
    }

    /// Lets SIGN stand if the profile admits the message with it, and else tells why not.
    fn put_sign(
        &mut self,
        rules: &Rules,
        sign_type: u8,
        length: usize,
    ) -> Result<Option<Fault>, AllocError> {
        self.message.sign_type = sign_type;
        self.message.signature = vec![in self.alloc; 0; length]?;
        if let Err(fault) = judge_records(&self.message, rules) {
            self.take_sign_off();
            return Ok(Some(fault));
        }
        self.has_sign = true;
        Ok(None)
    }

    fn take_sign_off(&mut self) {
        self.message.sign_type = 0;
        self.message.signature = Vec::new(self.alloc);
        self.has_sign = false;
    }

    /// The answer to a call that was carried out.
    fn done(&mut self) -> Result<Answer, AllocError> {
        self.settle()?;
        Ok(Answer::Done)
    }

    /// Makes the encoding and the buffer anew from the records.
    fn settle(&mut self) -> Result<(), AllocError> {
        let encoding = self.encoded()?;
        let mut buffer = Vec::from_slice(self.alloc, encoding.as_slice())?;
        buffer.resize(self.counted, 0)?;
        let beyond = self.buffer.as_slice().get(self.counted..).unwrap_or(&[]);
        buffer.extend_from_slice(beyond)?;
        self.encoding = encoding;
        self.buffer = buffer;
        Ok(())
    }

    fn encoded(&self) -> Result<Vec<u8>, AllocError> {
        if self.has_sign {
            encode(self.alloc, &self.message)
        } else if self.has_head {
            encode_open(self.alloc, &self.message, 0)
        } else {
            Ok(Vec::new(self.alloc))
        }
    }
}

/// What refuses a body: 9, 11, 12, 13.
fn check_body(code: u8, body: &[u8]) -> Result<(), Fault> {
    let kind = Kind::of(code).ok_or(Fault::of(9))?;
    let extent = kind.extent(body);
    if extent > body.len() {
        return Err(Fault::of(11));
    }
    if !kind.keeps_rule(&body[..extent]) {
        return Err(Fault::of(12));
    }
    if extent < body.len() {
        return Err(Fault::of(13));
    }
    Ok(())
}
