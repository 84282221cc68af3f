// Why a file is not taken: the line that tells it.
use profile::SheetRefusal;
use std::io;
use thiserror::Error;
use verifier::TrustRefusal;
use wire::Refusal;

#[derive(Debug, Drop, Error)]
pub enum Fault<'a> {
    #[error("{file} refused {told} {refusal}", told = .refusal.report())]
    Refused {
        file: &'a str,
        refusal: Refusal,
    },
    #[error("{file} refused {told} {refusal}", told = .refusal.report())]
    SheetRefused {
        file: &'a str,
        refusal: SheetRefusal,
    },
    #[error("{file} refused {told} {refusal} (line {line})", told = .refusal.report())]
    LineRefused {
        file: &'a str,
        line: usize,
        refusal: TrustRefusal,
    },
    #[error("{file} unreadable {error}")]
    Unreadable {
        file: &'a str,
        error: io::Error,
    },
    #[error(transparent)]
    Io(#[from] io::Error),
}
