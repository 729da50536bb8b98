// Why a line has no answer.
use std::alloc::AllocError;
use std::io;

#[derive(Debug, Drop)]
pub enum Failure {
    // The line is no case.
    NoCase,
    // Memory or the output fails, so the program ends.
    Io(io::Error),
}

impl From<io::Error> for Failure {
    fn from(value: io::Error) -> Failure {
        Failure::Io(value)
    }
}

impl From<AllocError> for Failure {
    fn from(value: AllocError) -> Failure {
        Failure::Io(io::Error::from(value))
    }
}
