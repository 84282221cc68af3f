// Pseudo-random lists of calls. Each call is made on the second decoder's draft at once, so that the next
// one mostly fits what the draft then holds.
use crate::generator::Generator;
use crate::systematic::WIDE;
use corpus::{Call, List, Step, make};
use second::Message;
use second::draft::PlainDraft;
use std::alloc::{AllocError, Global};

// The records of a message that was taken, and a profile for a close: that of its station if it has one.
#[derive(Drop)]
pub struct Record {
    pub message: Message,
    pub profile: Vec<u8>,
}

// What the lists of a family have in common.
#[derive(Clone, Copy)]
pub struct Family {
    pub name: &'static str,
    pub lists: usize,
    // The shortest buffer, and how much longer one may be.
    pub room: usize,
    pub more: usize,
    // The most calls after a message that is drafted first.
    pub calls: usize,
    // The longest body that is taken from a record.
    pub longest: usize,
    // How often, in a hundred, what is offered is broken; a body fills what room is left; and a list begins
    // with a whole message.
    pub odd: usize,
    pub full: usize,
    pub whole: usize,
    // How often, in a hundred, each call is made while the draft is open and while it is out: head, add,
    // replace, remove, close, sign, withdraw; else release.
    pub open: [u8; 7],
    pub out: [u8; 7],
}

// A list in the making.
#[derive(Drop)]
pub struct Writer<'a> {
    pub alloc: Global,
    pub generator: Generator,
    pub family: Family,
    pub records: &'a [Record],
    pub draft: PlainDraft,
    pub calls: Vec<Call>,
    pub steps: Vec<Step>,
}

type Written = Result<(), AllocError>;

impl<'a> Writer<'a> {
    fn happens(&mut self, percent: usize) -> bool {
        self.generator.happens(percent)
    }

    fn record(&mut self) -> Option<&'a Record> {
        let at = self.generator.below(self.records.len());
        self.records.get(at)
    }

    fn bytes(&mut self, length: usize) -> Result<Vec<u8>, AllocError> {
        let mut bytes = Vec::new(self.alloc);
        for _ in 0..length {
            bytes.push(self.generator.byte())?;
        }
        Ok(bytes)
    }

    // How many bytes are left in the buffer.
    fn left(&self) -> usize {
        let counted = self.draft.buffer().len().min(8192);
        counted.saturating_sub(self.draft.encoding().len())
    }

    // Bytes that lost some at the end, got one more, or have another value in one of their own.
    fn damage(&mut self, bytes: &mut Vec<u8>) -> Written {
        let at = self.generator.below(bytes.len().min(12));
        let by = self.generator.one_of(&[1, 2, 255, 128, 16], 1);
        match self.generator.below(5) {
            0 => bytes.truncate(at),
            1 => bytes.truncate(bytes.len().saturating_sub(1)),
            2 => bytes.push(by)?,
            _ => {
                if let Some(byte) = bytes.get_mut(at) {
                    *byte = byte.wrapping_add(by);
                }
            }
        }
        Ok(())
    }

    // A code and a body: of some record, or one that leaves hardly any room.
    fn payload(&mut self) -> Result<(u8, Vec<u8>), AllocError> {
        if self.happens(self.family.full) {
            let spare = self.generator.one_of(&[3, 4, 5, 6, 7, 8, 14, 15], 4);
            return self.filling(self.left().saturating_sub(spare));
        }
        let at = self.generator.below(24);
        let Some(record) = self.record() else {
            return self.filling(0);
        };
        let payloads = &record.message.payloads;
        let payload = payloads.get(at.checked_rem(payloads.len()).unwrap_or(0));
        match payload {
            Some(payload) if payload.body.len() <= self.family.longest => {
                self.broken(payload.code, Vec::from_slice(self.alloc, &payload.body)?)
            }
            _ => self.filling(0),
        }
    }

    // An EXT with so much data.
    fn filling(&mut self, length: usize) -> Result<(u8, Vec<u8>), AllocError> {
        let length = u16::try_from(length).unwrap_or(0);
        let mut body = Vec::from_slice(self.alloc, &[9])?;
        body.extend_from_slice(&length.to_be_bytes())?;
        let data = self.bytes(usize::from(length))?;
        body.extend_from_slice(&data)?;
        Ok((21, body))
    }

    // The body now and then damaged, or of another code.
    fn broken(&mut self, code: u8, body: Vec<u8>) -> Result<(u8, Vec<u8>), AllocError> {
        let mut body = body;
        let mut code = code;
        if self.happens(self.family.odd) {
            self.damage(&mut body)?;
        }
        if self.happens(self.family.odd / 4) {
            code = self
                .generator
                .one_of(&[0, 1, 4, 5, 10, 11, 14, 21, 26, 255], 0);
        }
        Ok((code, body))
    }

    fn head_of(&self, message: &Message) -> Result<Call, AllocError> {
        Ok(Call::Head {
            byte3: message.byte3,
            csb: message.csb,
            cs: message.cs,
            map_type: message.map_type,
            map_info: Vec::from_slice(self.alloc, &message.map_info)?,
        })
    }

    // The header of some record, now and then broken.
    fn head(&mut self) -> Result<Call, AllocError> {
        let Some(record) = self.record() else {
            return Ok(Call::Release);
        };
        let mut call = self.head_of(&record.message)?;
        if let Call::Head {
            cs,
            map_type,
            map_info,
            ..
        } = &mut call
            && self.happens(self.family.odd)
        {
            *cs = self.generator.one_of(&[*cs, *cs, *cs, 0, 1, 2, 4, 5], 0);
            *map_type = self
                .generator
                .one_of(&[*map_type, *map_type, *map_type, 0, 1, 2, 3], 0);
            self.damage(map_info)?;
        }
        Ok(call)
    }

    // Mostly one that is there.
    fn position(&mut self, places: usize) -> usize {
        match self.generator.below(20) {
            0 => places,
            1 => places.saturating_add(self.generator.below(3)),
            2 if self.happens(20) => usize::MAX,
            _ => self.generator.below(places),
        }
    }

    // Mostly a short signature, and now and then one of about what there is room for.
    fn close(&mut self) -> Result<Call, AllocError> {
        let profile = match self.record() {
            Some(record) if self.generator.happens(50) => &record.profile,
            _ => WIDE,
        };
        let left = self.left();
        let lengths = [
            8,
            8,
            8,
            8,
            8,
            8,
            1,
            20,
            left.saturating_sub(2),
            left.saturating_sub(1),
            0,
            4095,
            4096,
        ];
        Ok(Call::Close {
            profile: Vec::from_slice(self.alloc, profile)?,
            sign_type: self
                .generator
                .one_of(&[2, 2, 2, 2, 2, 2, 2, 0, 15, 16, 255], 2),
            length: self.generator.one_of(&lengths, 8),
        })
    }

    // Mostly of the length that close was given.
    fn sign(&mut self) -> Result<Call, AllocError> {
        let length = self.draft.message().signature.len();
        let lengths = [
            length,
            length,
            length,
            length,
            length.saturating_sub(1),
            length + 1,
            0,
        ];
        let length = self.generator.one_of(&lengths, length);
        Ok(Call::Sign(self.bytes(length)?))
    }

    fn call(&mut self) -> Result<Call, AllocError> {
        let count = self.draft.message().payloads.len();
        let weights = if self.draft.is_open() {
            self.family.open
        } else {
            self.family.out
        };
        match self.generator.weighted(&weights) {
            0 => self.head(),
            1 => {
                let position = self.position(count.saturating_add(1));
                let (code, body) = self.payload()?;
                Ok(Call::Add {
                    position,
                    code,
                    body,
                })
            }
            2 => {
                let position = self.position(count);
                let (code, body) = self.payload()?;
                Ok(Call::Replace {
                    position,
                    code,
                    body,
                })
            }
            3 => Ok(Call::Remove(self.position(count))),
            4 => self.close(),
            5 => self.sign(),
            6 => Ok(Call::Withdraw),
            _ => Ok(Call::Release),
        }
    }

    fn write(&mut self, call: Call) -> Written {
        let step = make(self.alloc, &mut self.draft, &call)?;
        self.steps.push(step)?;
        self.calls.push(call)?;
        Ok(())
    }

    // A record's message from its first call to a signature.
    fn whole(&mut self, record: &Record) -> Written {
        let head = self.head_of(&record.message)?;
        self.write(head)?;
        for (position, payload) in record.message.payloads.iter().enumerate() {
            self.write(Call::Add {
                position,
                code: payload.code,
                body: Vec::from_slice(self.alloc, &payload.body)?,
            })?;
        }
        self.write(Call::Close {
            profile: Vec::from_slice(self.alloc, &record.profile)?,
            sign_type: 2,
            length: 8,
        })?;
        let signature = self.bytes(8)?;
        self.write(Call::Sign(signature))
    }

    // All of the list.
    pub fn write_all(&mut self) -> Written {
        if self.happens(self.family.whole)
            && let Some(record) = self.record()
        {
            self.whole(record)?;
        } else if self.happens(90) {
            let head = self.head()?;
            self.write(head)?;
        }
        for _ in 0..self.generator.below(self.family.calls) {
            let call = self.call()?;
            self.write(call)?;
        }
        Ok(())
    }
}

// The list of a seed, and what the second decoder's draft does with it.
pub fn list(
    alloc: Global,
    family: &Family,
    records: &[Record],
    seed: u64,
) -> Result<(List, Vec<Step>), AllocError> {
    let mut generator = Generator::new(seed);
    let length = family.room.saturating_add(generator.below(family.more));
    let fill = generator.one_of(&[0, 0xa5], 0);
    let buffer = vec![in alloc; fill; length]?;
    let mut writer = Writer {
        alloc,
        generator,
        family: *family,
        records,
        draft: PlainDraft::begin(alloc, &buffer)?,
        calls: Vec::new(alloc),
        steps: Vec::new(alloc),
    };
    writer.write_all()?;
    let Writer { calls, steps, .. } = writer;
    Ok((
        List {
            length,
            fill,
            calls,
        },
        steps,
    ))
}
