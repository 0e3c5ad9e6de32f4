//! Why no configuration was read, and why no job was made.

use sub_number::NoMemory;

/// Why no configuration was read. Lines are counted from 1.
#[derive(Clone, Copy, PartialEq, Eq, Debug)]
pub enum ConfFault {
    /// This line is no setting. It is not UTF-8, has a NUL, a bracket without its other one, no key or no sign behind
    /// it, or of a `.stestr.conf` a value that its key may not have.
    BadLine(u32),
    /// This line is a setting in front of any section.
    NoSection(u32),
    /// This line sets a key that an earlier one has set.
    Repeated(u32),
    /// `test_command` is not set, or is empty.
    NoCommand,
    /// There is not enough memory.
    NoMemory,
}

/// A setting that a job needs.
#[derive(Clone, Copy, PartialEq, Eq, Debug)]
pub enum Key {
    /// `test_id_option`, where `test_command` has `$IDOPTION`.
    IdOption,
    /// `test_list_option`, and `$LISTOPT` in `test_command`.
    ListOption,
}

/// Why no job was made.
#[derive(Clone, Copy, PartialEq, Eq, Debug)]
pub enum JobFault {
    /// This setting is missing.
    NoOption(Key),
    /// There is not enough memory.
    NoMemory,
}

impl From<NoMemory> for ConfFault {
    ghost use Rattle.std.specs.Prelude.{◌≡◌};
    ghost use Rattle.testr_conf.specs.declared.fault.ConfFault.TheVariants as conf;

    ghost from_gives = { λ _ fault. fault ≡ conf.NoMemory };

    fn from(_: NoMemory) -> Self {
        ConfFault::NoMemory
    }
}

impl From<NoMemory> for JobFault {
    ghost use Rattle.std.specs.Prelude.{◌≡◌};
    ghost use Rattle.testr_conf.specs.declared.fault.JobFault.TheVariants as job;

    ghost from_gives = { λ _ fault. fault ≡ job.NoMemory };

    fn from(_: NoMemory) -> Self {
        JobFault::NoMemory
    }
}
