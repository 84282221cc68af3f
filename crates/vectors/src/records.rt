// Messages made of the records of others.
use second::{Message, Payload, decode, encode, tag};
use std::alloc::{AllocError, Global};

// How long the tag is.
const TAG: usize = 8;

// The code and the role of the IDR that signs.
fn is_signer(payload: &Payload) -> bool {
    payload.code == 14 && payload.body.first() == Some(&1)
}

// The ID data of the first IDR of role 1.
fn signer(payloads: &[Payload]) -> &[u8] {
    for payload in payloads {
        if is_signer(payload) {
            return payload.body.get(4..).unwrap_or(&[]);
        }
    }
    &[]
}

// The records of a message with some of its payloads, each named by its place, in this order.
pub fn arranged(alloc: Global, of: &Message, order: &[usize]) -> Result<Message, AllocError> {
    let mut payloads = Vec::new(alloc);
    for place in order {
        if let Some(payload) = of.payloads.get(*place) {
            payloads.push(Payload {
                code: payload.code,
                body: Vec::from_slice(alloc, &payload.body)?,
            })?;
        }
    }
    Ok(Message {
        byte3: of.byte3,
        csb: of.csb,
        cs: of.cs,
        map_type: of.map_type,
        map_info: Vec::from_slice(alloc, &of.map_info)?,
        payloads,
        sign_type: of.sign_type,
        signature: vec![in alloc; 0; TAG]?,
    })
}

// The bytes of records whose signature has the length of the tag, with the tag for it.
pub fn signed(alloc: Global, message: &Message, key: u64) -> Result<Vec<u8>, AllocError> {
    let mut bytes = encode(alloc, message)?;
    let span = bytes.len().saturating_sub(TAG);
    let front = bytes.get(..span).unwrap_or(&[]);
    let tag = tag(key, signer(&message.payloads), front).to_be_bytes();
    bytes.truncate(span);
    bytes.extend_from_slice(&tag)?;
    Ok(bytes)
}

// Signs a message anew, if it is one and its signature has the length of the tag.
pub fn sign(alloc: Global, bytes: &mut Vec<u8>, key: u64) -> Result<(), AllocError> {
    let Ok(decoded) = decode(alloc, bytes, crate::vector::ROWS) else {
        return Ok(());
    };
    if decoded.message.signature.len() != TAG {
        return Ok(());
    }
    let front = bytes.get(..decoded.span).unwrap_or(&[]);
    let tag = tag(key, &decoded.signer, front).to_be_bytes();
    bytes.truncate(decoded.span);
    bytes.extend_from_slice(&tag)
}
