// Why a file is no corpus.
use std::alloc::{AllocError, AllocFailed};
use thiserror::Error;

#[derive(Debug, Drop, Error)]
pub enum Malformed {
    #[error("it is no JSON: {0}")]
    Json(serde_json::Error),
    /// A member that has to be there is not, or is of another type.
    #[error("a member {0} is missing or of another type")]
    Member(&'static str),
    #[error("{0} does not name what it can name")]
    Name(&'static str),
    #[error("there is no memory")]
    Memory,
}

impl From<AllocError> for Malformed {
    fn from(_error: AllocError) -> Malformed {
        Malformed::Memory
    }
}

impl<T: Drop> From<AllocFailed<T>> for Malformed {
    fn from(_error: AllocFailed<T>) -> Malformed {
        Malformed::Memory
    }
}

impl From<serde_json::Error> for Malformed {
    fn from(error: serde_json::Error) -> Malformed {
        Malformed::Json(error)
    }
}
