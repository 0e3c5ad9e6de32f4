// The descriptors 0, 1 and 2, which a program may be started without.

use crate::real_spawner::Errors;
use std::fs::{File, Files};
use std::io;
use std::os::fd::AsRawFd;

// The last of the three.
const LAST: i32 = 2;

/// What stands at descriptors that were closed.
#[derive(Drop)]
pub struct Held {
    files: [Option<File>; 3],
}

impl Held {
    /// Where the programs that are started write their errors: where this one does, or nowhere, where its own were closed.
    pub fn errors(&self) -> Errors {
        for file in &self.files {
            if let Some(file) = file
                && file.as_raw_fd() == LAST
            {
                return Errors::Dropped;
            }
        }
        Errors::Inherited
    }
}

/// Holds each of the descriptors 0, 1 and 2 that is closed by a folder, which can be neither read nor written as a file.
/// Else the next file that is opened, as the repository's lock, would be taken for standard input or output.
pub fn hold_closed<R: Files<File = File>>(rt: &R) -> io::Result<Held> {
    Ok(Held {
        files: [next_low(rt)?, next_low(rt)?, next_low(rt)?],
    })
}

// The system gives the least descriptor that is free. One above the three means that none of them is.
fn next_low<R: Files<File = File>>(rt: &R) -> io::Result<Option<File>> {
    let file = File::open(rt, "/")?;
    if file.as_raw_fd() <= LAST {
        Ok(Some(file))
    } else {
        Ok(None)
    }
}
