//! One pattern, and texts in which it is looked for.

ghost use Rattle.std.specs.Prelude.{◌≡◌, IfOk};
ghost use Rattle.partition_times.specs.Patterns.{IsBadPattern};
ghost use Rattle.partition_times.specs.Compiled.{IsCompiled};

use regex::{Error, Regex};
use std::alloc::{AllocError, AllocFailed, Global};
use std::str;
use sub_number::Text;

/// Why patterns were not taken.
#[derive(Clone, Copy, PartialEq, Eq, Debug)]
pub enum PatternFault {
    /// The pattern with this index, from 0 on, is bad: `regex` reads no pattern in it, or one that is nested too deep.
    BadPattern(usize),
    /// There is not enough memory, or the pattern asks for more than `regex` gives one pattern.
    NoMemory,
}

impl From<AllocError> for PatternFault {
    ghost use Rattle.std.specs.Prelude.{◌≡◌};
    ghost use Rattle.partition_times.specs.declared.pattern.PatternFault.TheVariants.{NoMemory};

    ghost from_gives = { λ _ fault. fault ≡ NoMemory };

    fn from(_: AllocError) -> Self {
        PatternFault::NoMemory
    }
}

impl<T: Drop> From<AllocFailed<T>> for PatternFault {
    ghost use Rattle.std.specs.Prelude.{◌≡◌};
    ghost use Rattle.partition_times.specs.declared.pattern.PatternFault.TheVariants.{NoMemory};

    ghost from_gives = { λ _ fault. fault ≡ NoMemory };

    fn from(_: AllocFailed<T>) -> Self {
        PatternFault::NoMemory
    }
}

// A text as a string, without a copy.
pub(crate) fn string_of(text: &Text) -> &str
    ensures { result.now ≡ text.now }
{
    match str::from_utf8(text.bytes()) {
        Ok(string) => string,
        Err(_) => unreachable!(),
    }
}

// The pattern with this index, compiled.
pub(crate) fn compiled(alloc: Global, index: usize, pattern: &Text) -> Result<Regex, PatternFault>
    ensures ok { IfOk result (IsCompiled pattern.now) }
    ensures bad { (i : _) → result ≡ Err (PatternFault.BadPattern i) → (i ≡ index) × IsBadPattern pattern.now }
{
    match Regex::new(alloc, string_of(pattern)) {
        Ok(regex) => Ok(regex),
        Err(Error::Syntax(_)) => Err(PatternFault::BadPattern(index)),
        Err(Error::CompiledTooBig | Error::OutOfMemory) => Err(PatternFault::NoMemory),
        // `regex` promises that it never gives this one.
        Err(Error::Internal) => unreachable!(),
    }
}
