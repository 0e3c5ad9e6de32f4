//! When an event happened.

ghost use Rattle.std.specs.Prelude.{◌≡◌, ◌+◌, ◌*◌, ◌<◌, ◌^◌};

/// A time since 1970 in UTC: `seconds`, and `nanos` nanoseconds after them.
///
/// The nanoseconds are those of the packet, below 2^30. They may be a second or more, and then carry into the
/// instant, which is `seconds * 1,000,000,000 + nanos` nanoseconds.
#[derive(Clone, Copy, Debug, PartialEq, Eq)]
pub struct Stamp {
    pub seconds: u32,
    pub nanos: u32,
    pub ghost nanos_fit: { nanos < 2 ^ 30 },
}

impl Stamp {
    /// The instant, in nanoseconds since 1970 in UTC.
    pub fn instant(self) -> u64
        ensures { result ≡ self.seconds * 1_000_000_000 + self.nanos }
    {
        u64::from(self.seconds) * 1_000_000_000 + u64::from(self.nanos)
    }
}
