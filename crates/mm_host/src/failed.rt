// The answer of a device that failed.
use thiserror::Error;

/// A device failed. Which call it was, the device's count of faults shows.
#[derive(Debug, Drop, Error)]
#[error("the device failed")]
pub struct Failed;
