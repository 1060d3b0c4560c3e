use std::alloc::AllocError;
use std::fmt;
use thiserror::Error;

/// Why a run was not said to its end.
#[derive(Debug, Drop, Error)]
pub enum Unsaid {
    #[error("{0}")]
    Format(#[from] fmt::Error),
    #[error("{0}")]
    OutOfMemory(#[from(alloc)] AllocError),
}
