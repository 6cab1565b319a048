//! What a keeper makes of the database's errors.
use row_keeper::KeepFault;
use sqlite::{Error, ErrorCode};

/// Want of memory is told as such; every other error is a failure of the disk.
pub(crate) fn fault_of(error: Error) -> KeepFault {
    match error {
        Error::SqliteFailure(ErrorCode::OutOfMemory) => KeepFault::Memory,
        _ => KeepFault::Failed,
    }
}
