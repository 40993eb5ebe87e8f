//! Why the rows end early.
use image_run::MemFault;
use std::alloc::AllocError;
use std::io;
use std::num::ParseIntError;
use thiserror::Error;

/// Why a line wasn't done.
#[derive(Debug, Drop, Error)]
pub enum Fault {
    #[error("this line isn't understood")]
    Line,
    #[error("this line isn't understood: {0}")]
    Number(#[from] ParseIntError),
    #[error("out of memory")]
    Memory(#[from(alloc)] AllocError),
    #[error("{0}")]
    Unmade(#[from] MemFault),
    #[error("{0}")]
    Outside(#[from] io::Error),
}
