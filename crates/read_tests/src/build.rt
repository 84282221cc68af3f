// Messages, put together payload by payload.
use std::alloc::{AllocError, AllocFailed, Global};
use verifier::KeyTag;

pub(crate) const KEY: KeyTag = KeyTag {
    key: 0x0123456789abcdef,
};

pub(crate) const SIGNER: &[u8] = b"a";

// A message without SIGN, and the place of its last next-payload byte.
#[derive(Drop)]
pub(crate) struct Unsigned {
    bytes: Vec<u8>,
    next: usize,
}

impl Unsigned {
    // A header with so many sessions of six bytes.
    pub(crate) fn new(heap: Global, purpose: u8, sessions: u8) -> Result<Unsigned, AllocError> {
        let map = if sessions == 0 { 1 } else { 2 };
        let mut bytes = Vec::from_slice(
            heap,
            &[1, 26, 0, 1, purpose % 16 * 16, 0, 0, 1, sessions, map],
        )?;
        for _ in 0..sessions {
            bytes.extend_from_slice(&[0; 6])?;
        }
        Ok(Unsigned { bytes, next: 2 })
    }

    fn name_next(&mut self, code: u8) {
        if let Some(next) = self.bytes.get_mut(self.next) {
            *next = code;
        }
    }

    pub(crate) fn add(&mut self, code: u8, body: &[u8]) -> Result<(), AllocError> {
        self.name_next(code);
        self.next = self.bytes.len();
        self.bytes.push(0)?;
        self.bytes.extend_from_slice(body)
    }

    // With SIGN of type 2, by the key.
    pub(crate) fn sign(mut self) -> Result<Vec<u8>, AllocError> {
        self.name_next(4);
        let Unsigned { mut bytes, .. } = self;
        bytes.extend_from_slice(&[0x20, 8])?;
        let signature = KEY.sign(SIGNER, &bytes);
        bytes.extend_from_slice(&signature)?;
        Ok(bytes)
    }
}
