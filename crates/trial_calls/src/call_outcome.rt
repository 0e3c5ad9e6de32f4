//! What a call of the program answered and wrote.
ghost use Rattle.std.specs.Prelude.{◌≡◌, ◌↔◌, IsTrue};

/// The status that a call answered, and what it wrote.
#[derive(Drop)]
pub struct CallOutcome {
    /// The status.
    pub status: u8,
    /// The bytes that the output took.
    pub out: Vec<u8>,
    /// The bytes that the sink of errors took.
    pub err: Vec<u8>,
}

impl CallOutcome {
    /// Whether it is this status, these bytes of the output, and these of the sink of errors.
    pub fn is(&self, status: u8, out: &[u8], err: &[u8]) -> bool
        ensures { IsTrue result ↔ ((self.now.status ≡ status) × ((self.now.out.items ≡ out.now) × (self.now.err.items ≡ err.now))) }
    {
        self.status == status && self.out.as_slice() == out && self.err.as_slice() == err
    }
}
