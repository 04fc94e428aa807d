// Why a script is not swept, or no longer.
use script::wrong::Mistake;
use std::alloc::AllocError;
use std::io;

#[derive(Drop)]
pub enum Failure {
    Mistake(Mistake),
    Io(io::Error),
}

impl From<Mistake> for Failure {
    fn from(mistake: Mistake) -> Self {
        Failure::Mistake(mistake)
    }
}

impl From<io::Error> for Failure {
    fn from(error: io::Error) -> Self {
        Failure::Io(error)
    }
}

impl From<AllocError> for Failure {
    fn from(error: AllocError) -> Self {
        Failure::Io(error.into())
    }
}
