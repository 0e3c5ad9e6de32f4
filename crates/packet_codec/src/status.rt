//! What an event says of its test.

ghost use Rattle.std.specs.Prelude.{◌≡◌};

/// The status of a test, as the Subunit README numbers them from 0.
#[derive(Clone, Copy, Debug, PartialEq, Eq)]
pub enum Status {
    /// Nothing is said of a test.
    Unset,
    /// The test is there; it did not run.
    Exists,
    /// The test has begun.
    InProgress,
    /// The test passed.
    Success,
    /// The test passed, and was expected to fail.
    UxSuccess,
    /// The test did not run.
    Skip,
    /// The test failed.
    Fail,
    /// The test failed, as was expected.
    XFail,
}

impl Status {
    ghost use Rattle.packet_codec.specs.Flags.{status_number};

    /// The number that stands for it in the lowest three flag bits, from 0 to 7.
    pub fn number(self) -> u8
        ensures { result ≡ status_number self }
    {
        match self {
            Status::Unset => 0,
            Status::Exists => 1,
            Status::InProgress => 2,
            Status::Success => 3,
            Status::UxSuccess => 4,
            Status::Skip => 5,
            Status::Fail => 6,
            Status::XFail => 7,
        }
    }
}
