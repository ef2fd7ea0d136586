//! Why a measurement has no answer, and the status of a program that says so.
ghost use Rattle.std.specs.Prelude.{◌≡◌, ◌≤◌, IsErr};

use std::alloc::{AllocError, AllocFailed};
use std::io::Print;
use std::{fmt, io};

/// Why a measurement has no answer.
#[derive(Drop)]
pub enum Failure {
    /// There was no memory.
    NoMemory,
    /// Not all tasks ended: so many did, of so many.
    Lost(u64, u64),
    /// A group answered for so many of its tasks, of so many.
    Unanswered(u64, u64),
    /// A call did not do what is to be measured: there was no output, or nothing was scheduled; or nothing was measured.
    Unexpected,
    /// A thread could not be started.
    NoThread,
    /// The clock, an executor or a writer failed.
    Io(io::Error),
}

impl From<AllocError> for Failure {
    fn from(_refused: AllocError) -> Failure {
        Failure::NoMemory
    }
}

impl<T: Drop> From<AllocFailed<T>> for Failure {
    fn from(_refused: AllocFailed<T>) -> Failure {
        Failure::NoMemory
    }
}

impl From<io::Error> for Failure {
    fn from(error: io::Error) -> Failure {
        Failure::Io(error)
    }
}

impl fmt::Display for Failure {
    fn fmt<W: fmt::Write>(&self, f: &mut fmt::Formatter<W>) -> fmt::Result {
        match self {
            Failure::NoMemory => f.write_str("no memory"),
            Failure::Lost(ended, wanted) => write!(f, "{ended} of {wanted} tasks ended"),
            Failure::Unanswered(answered, wanted) => {
                write!(f, "a group answered for {answered} of {wanted} tasks")
            }
            Failure::Unexpected => f.write_str("a call did not do what is to be measured"),
            Failure::NoThread => f.write_str("no thread could be started"),
            Failure::Io(error) => write!(f, "{error}"),
        }
    }
}

/// The status of the program. A failure is told on `err`.
pub fn status_of<P: Print>(done: Result<(), Failure>, err: &P) -> u8
    ensures status { result ≤ 1 }
    ensures failed { IsErr done → result ≡ 1 }
{
    if let Err(failure) = &done {
        let _ = println!(err; "bench_tasks: {failure}");
    }
    u8::from(done.is_err())
}
