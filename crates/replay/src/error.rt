// Why the calls of a script are not made.
use crate::bring::MOST_CALLS;
use crate::script::MOST_BYTES;
use std::alloc::{AllocError, AllocFailed};
use std::{fmt, io};
use values::word::NotAValue;

// Why a line adds no call.
#[derive(Debug, Drop)]
pub enum LineError {
    NoCall,
    // one call more than a script may have
    OneMore,
    // a file or memory that is not to be had
    Missing(io::Error),
}

impl From<io::Error> for LineError {
    fn from(error: io::Error) -> LineError {
        LineError::Missing(error)
    }
}

impl From<AllocError> for LineError {
    fn from(error: AllocError) -> LineError {
        LineError::Missing(error.into())
    }
}

impl<T: Drop> From<AllocFailed<T>> for LineError {
    fn from(failed: AllocFailed<T>) -> LineError {
        AllocError::from(failed).into()
    }
}

impl From<NotAValue> for LineError {
    fn from(_error: NotAValue) -> LineError {
        LineError::NoCall
    }
}

#[derive(Debug, Drop)]
pub enum Error {
    Usage,
    TooLong,
    NoText,
    // of a line, counted from 1
    Line { line: usize, error: LineError },
    Io(io::Error),
}

impl fmt::Display for Error {
    fn fmt<W: fmt::Write>(&self, f: &mut fmt::Formatter<W>) -> fmt::Result {
        match self {
            Error::Usage => write!(f, "usage: replay word|blank < SCRIPT"),
            Error::TooLong => write!(f, "replay: the script has more than {MOST_BYTES} bytes"),
            Error::NoText => write!(f, "replay: the script is no text"),
            Error::Line { line, error } => match error {
                LineError::NoCall => write!(f, "replay: line {line} is no call"),
                LineError::OneMore => {
                    write!(f, "replay: line {line} is one call more than {MOST_CALLS}")
                }
                LineError::Missing(error) => write!(f, "replay: line {line}: {error}"),
            },
            Error::Io(error) => write!(f, "{error}"),
        }
    }
}

impl From<io::Error> for Error {
    fn from(error: io::Error) -> Error {
        Error::Io(error)
    }
}

impl From<AllocError> for Error {
    fn from(error: AllocError) -> Error {
        Error::Io(error.into())
    }
}

impl<T: Drop> From<AllocFailed<T>> for Error {
    fn from(failed: AllocFailed<T>) -> Error {
        AllocError::from(failed).into()
    }
}
