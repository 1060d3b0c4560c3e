use console_runs::Unsaid;
use std::alloc::AllocError;
use std::{fmt, io};
use thiserror::Error;

/// Why a command was not done.
#[derive(Debug, Drop, Error)]
pub enum Failure {
    /// what was asked for is not to be had
    #[error("{0}")]
    Refused(String),
    /// a command was given the wrong words
    #[error("{0}")]
    Misused(&'static str),
    #[error("{0}")]
    Io(#[from] io::Error),
    #[error("{0}")]
    Format(#[from] fmt::Error),
    #[error("{0}")]
    Unsaid(#[from] Unsaid),
    #[error("{0}")]
    OutOfMemory(#[from(alloc)] AllocError),
}
