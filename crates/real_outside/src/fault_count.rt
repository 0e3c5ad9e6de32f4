// Counts of the calls that fail.
ghost use Rattle.std.specs.Prelude.{◌≡◌, ◌≤◌, Ok, IsErr, MatchResult};
ghost use Rattle.edge_io.specs.Causes.{HasCause, Rose};
ghost use Rattle.edge_io.specs.Names.{HasNamesCause};

use crate::cause::Cause;
use edge_io::{Failed, NamesFault};

/// The calls of an object that failed.
#[derive(Drop)]
pub struct Faults {
    /// How many they were, up to the last value.
    pub count: u64,
    /// Why the last of them failed.
    pub cause: Option<Cause>,
}

impl Faults {
    /// None yet.
    pub fn new() -> Self {
        Faults {
            count: 0,
            cause: None,
        }
    }

    /// A failure of a call of the system, which raises the count by one, up to its last value.
    pub fn fail(&mut self, cause: Cause) -> Failed
        ensures later { self.old.count ≤ self.new.count }
        ensures rose { Rose self.old.count self.new.count }
    {
        self.count = self.count.saturating_add(1);
        self.cause = Some(cause);
        Failed
    }

    /// What a call of the system gave, where a failure raises the count by one, up to its last value.
    pub fn counted<T>(&mut self, outcome: Result<T, Cause>) -> Result<T, Failed>
        ensures given { MatchResult outcome (λ value. result ≡ Ok value) (λ _. IsErr result) }
        ensures cause { HasCause self.old.count self.new.count result }
    {
        match outcome {
            Ok(value) => Ok(value),
            Err(cause) => Err(self.fail(cause)),
        }
    }

    /// The names that a call of the system gave. Want of memory is no fault, and each other failure raises the count by
    /// one, up to its last value.
    pub fn counted_names<T>(&mut self, outcome: Result<T, Cause>) -> Result<T, NamesFault>
        ensures given { MatchResult outcome (λ value. result ≡ Ok value) (λ _. IsErr result) }
        ensures cause { HasNamesCause self.old.count self.new.count result }
    {
        match outcome {
            Ok(names) => Ok(names),
            Err(cause) if cause.is_want_of_memory() => Err(NamesFault::NoMemory),
            Err(cause) => {
                self.count = self.count.saturating_add(1);
                self.cause = Some(cause);
                Err(NamesFault::Failed)
            }
        }
    }
}
