// What ends the way of the message.
use profile::SheetRefusal;
use std::io;
use thiserror::Error;
use wire::Refusal;

/// Why the message does not go its way to the end.
#[derive(Debug, Drop, Error)]
pub enum Fault {
    #[error("{0}")]
    Refused(#[from] Refusal),
    #[error("{0}")]
    Sheet(#[from] SheetRefusal),
    #[error(transparent)]
    Io(#[from] io::Error),
}
