//! What can keep the program from its answer.
use super::input::LIMIT;
use std::alloc::AllocError;
use std::io;
use thiserror::Error;

const USAGE: &str = "usage: check [--tokens] < TEXT";

/// Why there is no answer.
#[derive(Debug, Drop, Error)]
pub enum Failure {
    /// The arguments could not be read.
    #[error("cannot read the arguments: {0}\n{usage}", usage = USAGE)]
    Arguments(io::Error),
    /// An argument that is not known.
    #[error("unknown argument {0}\n{usage}", usage = USAGE)]
    Unknown(String),
    /// The text could not be read.
    #[error("cannot read the text: {0}")]
    Input(io::Error),
    /// The text is longer than a text may be.
    #[error("the text has more than {limit} bytes", limit = LIMIT)]
    TooLong,
    /// The answer could not be written.
    #[error("cannot write the answer: {0}")]
    Output(io::Error),
    /// There is too little memory for the answer.
    #[error("too little memory for the answer")]
    Memory(#[from(alloc)] AllocError),
}
