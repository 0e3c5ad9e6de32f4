// Why a call of the system failed, in words for the person at the terminal.

ghost use Rattle.std.specs.Prelude.{◌≡◌, Ok, IsErr, MatchResult};

use std::fmt::{Display, Formatter};
use std::io::ErrorKind;
use std::{fmt, io};

/// A call of the system that failed: what it was to do, on what, and the system's words.
#[derive(Drop)]
pub struct Cause {
    call: &'static str,
    object: Object,
    error: io::Error,
}

// What a call was made on.
#[derive(Drop)]
enum Object {
    // A file of a fixed path, or a stream.
    Fixed(&'static str),
    // A file whose path was made.
    Made(String),
}

impl Cause {
    /// The cause that this error of this call is.
    pub fn new(call: &'static str, object: &'static str, error: io::Error) -> Self {
        Cause {
            call,
            object: Object::Fixed(object),
            error,
        }
    }

    /// The same of a path that was made.
    pub fn of_path(call: &'static str, path: String, error: io::Error) -> Self {
        Cause {
            call,
            object: Object::Made(path),
            error,
        }
    }

    /// Whether memory was wanting.
    pub fn is_want_of_memory(&self) -> bool {
        self.error.kind() == ErrorKind::OutOfMemory
    }
}

/// What the call gave, and where it failed, the cause.
pub fn told<T>(call: &'static str, object: &'static str, outcome: io::Result<T>) -> Result<T, Cause>
    ensures { MatchResult outcome (λ value. result ≡ Ok value) (λ _. IsErr result) }
{
    match outcome {
        Ok(value) => Ok(value),
        Err(error) => Err(Cause::new(call, object, error)),
    }
}

impl Display for Cause {
    fn fmt<W: fmt::Write>(&self, f: &mut Formatter<W>) -> fmt::Result {
        match &self.object {
            Object::Fixed(object) => write!(f, "{} {}: {}", self.call, object, self.error),
            Object::Made(path) => write!(f, "{} {}: {}", self.call, path, self.error),
        }
    }
}
