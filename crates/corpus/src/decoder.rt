// What every decoder is asked. A refusal is an answer; only a lack of memory is an error.
use crate::answer::Answer;
use std::alloc::{AllocError, Global};

/// By what a message is judged.
#[derive(Drop)]
pub struct Station {
    /// `csk`, `pck` or `gmk`, or else the text of a sheet.
    pub profile: Vec<u8>,
    /// The key of the tag.
    pub key: u64,
    /// The signers on the trust list; with none there is no such list.
    pub trusted: Vec<Vec<u8>>,
}

pub trait Decoder {
    /// A message, with so many rows lent.
    fn walk(&self, alloc: Global, message: &[u8], rows: usize) -> Result<Answer, AllocError>;

    fn read(
        &self,
        alloc: Global,
        message: &[u8],
        rows: usize,
        station: &Station,
    ) -> Result<Answer, AllocError>;

    /// The bytes of a message that a row marks off.
    fn part(
        &self,
        alloc: Global,
        message: &[u8],
        start: u32,
        length: u32,
    ) -> Result<Answer, AllocError>;

    /// The seconds of a T payload, as eight bytes.
    fn time(&self, alloc: Global, payload: &[u8]) -> Result<Answer, AllocError>;

    fn sheet(&self, alloc: Global, text: &[u8]) -> Result<Answer, AllocError>;

    /// The tag of a signer and a span, as eight bytes.
    fn tag(
        &self,
        alloc: Global,
        key: u64,
        signer: &[u8],
        span: &[u8],
    ) -> Result<Answer, AllocError>;

    /// Whether a signer is taken onto a trust list that has others.
    fn enter(
        &self,
        alloc: Global,
        entered: &[Vec<u8>],
        signer: &[u8],
    ) -> Result<Answer, AllocError>;
}
