// Why a line gives no case.
use hex::FromHexError;
use std::alloc::AllocError;
use thiserror::Error;

// The line is not in the format, or there is no memory for what it gives.
#[derive(Debug, Drop, Error)]
pub enum Fault {
    #[error("not in the format")]
    Format,
    #[error("{0}")]
    Memory(#[from] AllocError),
}

impl From<FromHexError> for Fault {
    fn from(error: FromHexError) -> Fault {
        match error {
            FromHexError::OutOfMemory => Fault::Memory(AllocError),
            _ => Fault::Format,
        }
    }
}
