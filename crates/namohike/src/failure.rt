// Why the program does not do what it was asked.
ghost use Rattle.namohike.specs.Failures.{failure_shown};

use commands::command::CommandError;
use commands::verb::Usage;
use disk::refusal::Refusal;
use std::alloc::AllocError;
use std::error::Error;
use std::{fmt, io};

#[derive(Clone, Copy, Debug)]
pub enum Failure<'a> {
    Refused(Refusal),
    // words that ask for no command
    Misused(CommandError<'a>),
    CannotRead(&'a str, io::Error),
    CannotWrite(&'a str, io::Error),
    Failed(io::Error),
}

impl fmt::Display for Failure<'_> {
    ghost output = { failure_shown };

    fn fmt<W: fmt::Write>(&self, f: &mut fmt::Formatter<W>) -> fmt::Result {
        match self {
            Failure::Refused(refusal) => write!(f, "{refusal}"),
            Failure::Misused(error) => write!(f, "{error}"),
            Failure::CannotRead(path, error) => write!(f, "cannot read {path}: {error}"),
            Failure::CannotWrite(path, error) => write!(f, "cannot write {path}: {error}"),
            Failure::Failed(error) => write!(f, "{error}"),
        }
    }
}

impl Error for Failure<'_> {}

impl From<Refusal> for Failure<'_> {
    fn from(refusal: Refusal) -> Self {
        Failure::Refused(refusal)
    }
}

impl<'a> From<CommandError<'a>> for Failure<'a> {
    fn from(error: CommandError<'a>) -> Self {
        Failure::Misused(error)
    }
}

impl From<io::Error> for Failure<'_> {
    fn from(error: io::Error) -> Self {
        Failure::Failed(error)
    }
}

impl From<AllocError> for Failure<'_> {
    fn from(error: AllocError) -> Self {
        Failure::Failed(io::Error::from(error))
    }
}

// A refusal is an answer, and so goes where accounts go; what has to do with words, files and memory goes to standard error.
pub fn report(rt: &HostRuntime, failure: Failure<'_>) {
    let _ = match failure {
        Failure::Refused(_) => println!(rt; "{failure}"),
        Failure::Misused(CommandError::NoCommand) => eprintln!(rt; "{}", Usage),
        _ => eprintln!(rt; "namohike: {failure}"),
    };
}
