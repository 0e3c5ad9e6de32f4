// A file that is read a little at a time.
ghost use Rattle.std.specs.Prelude.{◌≤◌, length, []};

use edge_io::{Failed, Found, Site};

/// One file, whatever it is called. A read gives 1,000 bytes of it at most, and from the place `gone` on it is no longer there.
#[derive(Drop)]
pub struct SlowSite {
    pub bytes: Vec<u8>,
    pub gone: u64,
}

// Moves what fits of the bytes, and no more than 1,000.
fn copy_front(bytes: &[u8], buf: &mut [u8]) -> usize
    ensures { result ≤ length buf.new }
{
    let count = bytes.len().min(buf.len()).min(1_000);
    buf[..count].copy_from_slice(&bytes[..count]);
    count
}

// It tells nothing, and no read of it fails.
impl Site for SlowSite {
    ghost use Rattle.std.specs.Prelude.{None};

    ghost seen = { λ _. record { told = None; faults = 0 } };

    ghost folder = { λ _. [] };

    fn folder(&self) -> &str {
        ""
    }

    fn read_at(&mut self, _name: &str, place: u64, buf: &mut [u8]) -> Result<Found, Failed> {
        if place >= self.gone {
            return Ok(Found::Absent);
        }
        let start = place.min(self.bytes.len() as u64) as usize;
        Ok(Found::Read(copy_front(&self.bytes[start..], buf)))
    }
}
