// Decoding: from the bytes of a message to its records and rows, or the first refusal on the way.
ghost use Rattle.std.specs.Prelude.{◌≡◌, ◌<◌, ◌≤◌, ◌+◌, ◌^◌, length};

use crate::fault::{Failed, Fault};
use crate::kind::{Kind, MOST_PAYLOADS, SIGN, pair_or_zero};
use crate::message::{Decoded, Message, Payload, Row};
use crate::sessions::{is_lawful_map, sessions_length};
use crate::slots;
use std::alloc::{AllocError, Global};

/// The longest message.
pub const MOST_BYTES: usize = 8192;

/// The length of a header without map info.
const FIXED_HEADER: usize = 10;

/// Where byte 2 of the header, the first next-payload byte, stands.
const FIRST_NEXT: usize = 2;

/// Reads a message to its end: refusals 1 to 13. `rows_lent` is how many rows the caller has lent;
/// the rows come back in `Decoded`.
pub fn decode(alloc: Global, bytes: &[u8], rows_lent: usize) -> Result<Decoded, Failed> {
    if rows_lent < MOST_PAYLOADS {
        return Err(Failed::Refused(Fault::at(1, 0)));
    }
    if bytes.len() > MOST_BYTES {
        return Err(Failed::Refused(Fault::at(2, MOST_BYTES)));
    }
    let head = Head::at_front(bytes).ok_or(Fault::at(3, bytes.len()))?;
    head.check()?;
    let map_length = sessions_length(head.cs, head.behind, FIXED_HEADER)?;
    let (map_info, rest) = head.behind.split_at(map_length);
    let header = FIXED_HEADER + map_length;
    let mut found = Found {
        alloc,
        payloads: Vec::new(alloc),
        rows: Vec::new(alloc),
    };
    let sign = found.follow(head.first, FIRST_NEXT, rest, header)?;
    Ok(found.into_decoded(head, map_info, header, sign)?)
}

/// The header's fixed bytes, and the bytes after them.
#[derive(Clone, Copy)]
struct Head<'a> {
    version: u8,
    data_type: u8,
    first: u8,
    byte3: u8,
    csb: u32,
    cs: u8,
    map_type: u8,
    behind: &'a [u8],
}

impl<'a> Head<'a> {
    fn at_front(bytes: &'a [u8]) -> Option<Head<'a>> {
        match bytes {
            [
                version,
                data_type,
                first,
                byte3,
                c0,
                c1,
                c2,
                c3,
                cs,
                map_type,
                behind @ ..,
            ] => {
                Some(Head {
                    version: *version,
                    data_type: *data_type,
                    first: *first,
                    byte3: *byte3,
                    csb: u32::from_be_bytes([*c0, *c1, *c2, *c3]),
                    cs: *cs,
                    map_type: *map_type,
                    behind,
                })
            }
            _ => None,
        }
    }

    fn check(self) -> Result<(), Fault> {
        if self.version != 1 {
            return Err(Fault::at(4, 0));
        }
        if self.data_type != 26 {
            return Err(Fault::at(5, 1));
        }
        if !is_lawful_map(self.map_type, self.cs) {
            return Err(Fault::at(6, 8));
        }
        Ok(())
    }
}

/// The ID data of the first IDR of role 1, or no bytes if there is none.
fn signer_of(payloads: &[Payload]) -> &[u8] {
    payloads
        .iter()
        .find(|payload| slots::slot_of(payload.code, payload.body.as_slice()) == slots::INITIATOR)
        .and_then(|payload| payload.body.as_slice().get(4..))
        .unwrap_or(&[])
}

/// What ends the chain.
#[derive(Drop)]
struct Sign {
    sign_type: u8,
    signature: Vec<u8>,
    span: usize,
}

/// The payloads and rows found so far.
#[derive(Drop)]
struct Found {
    alloc: Global,
    payloads: Vec<Payload>,
    rows: Vec<Row>,
}

impl Found {
    /// Follows the chain through `rest`, which begins at `start`: the payload there has this code,
    /// and the byte at `named_at` says so.
    fn follow(
        &mut self,
        code: u8,
        named_at: usize,
        rest: &[u8],
        start: usize,
    ) -> Result<Sign, Failed>
        requires { start + length rest.now < 2 ^ 64 }
    {
        if code == SIGN {
            return self.finish(rest, start);
        }
        let kind = Kind::of(code).ok_or(Fault::at(9, named_at))?;
        self.check_room(start)?;
        let [next, tail @ ..] = rest else {
            return Err(Failed::Refused(Fault::at(11, start)));
        };
        let extent = kind.extent(tail);
        if extent > tail.len() {
            return Err(Failed::Refused(Fault::at(11, start)));
        }
        let (body, behind) = tail.split_at(extent);
        if !kind.keeps_rule(body) {
            return Err(Failed::Refused(Fault::at(12, start)));
        }
        self.keep(code, body, start)?;
        self.follow(*next, start, behind, start + 1 + extent)
    }

    /// Reads SIGN, which nothing may follow.
    fn finish(&mut self, rest: &[u8], start: usize) -> Result<Sign, Failed>
        requires { start + length rest.now < 2 ^ 64 }
    {
        self.check_room(start)?;
        let head = pair_or_zero(rest, 0);
        let extent = 2 + usize::from(head % 4096);
        if extent > rest.len() {
            return Err(Failed::Refused(Fault::at(11, start)));
        }
        if extent == 2 {
            return Err(Failed::Refused(Fault::at(12, start)));
        }
        if extent < rest.len() {
            return Err(Failed::Refused(Fault::at(13, start + extent)));
        }
        self.rows.push(Row {
            code: SIGN,
            slot: slots::SIGN,
            start,
            length: extent,
        })?;
        Ok(Sign {
            sign_type: (head / 4096) as u8,
            signature: Vec::from_slice(self.alloc, &rest[2..])?,
            span: start + 2,
        })
    }

    /// Refuses a payload that would be one too many.
    fn check_room(&self, start: usize) -> Result<(), Fault> {
        if self.rows.len() < MOST_PAYLOADS {
            Ok(())
        } else {
            Err(Fault::at(10, start))
        }
    }

    /// Keeps a payload that is in order, and its row.
    fn keep(&mut self, code: u8, body: &[u8], start: usize) -> Result<(), AllocError> {
        let slot = slots::slot_of(code, body);
        self.rows.push(Row {
            code,
            slot,
            start,
            length: body.len() + 1,
        })?;
        let body = Vec::from_slice(self.alloc, body)?;
        self.payloads.push(Payload { code, body })?;
        Ok(())
    }

    /// All that was read, put together.
    fn into_decoded(
        self,
        head: Head,
        map_info: &[u8],
        header: usize,
        sign: Sign,
    ) -> Result<Decoded, AllocError> {
        let Found {
            alloc,
            payloads,
            rows,
        } = self;
        let Sign {
            sign_type,
            signature,
            span,
        } = sign;
        let signer = Vec::from_slice(alloc, signer_of(payloads.as_slice()))?;
        let message = Message {
            byte3: head.byte3,
            csb: head.csb,
            cs: head.cs,
            map_type: head.map_type,
            map_info: Vec::from_slice(alloc, map_info)?,
            payloads,
            sign_type,
            signature,
        };
        Ok(Decoded {
            message,
            rows,
            header,
            span,
            signer,
        })
    }
}
