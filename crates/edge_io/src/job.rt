//! What a program is started with.
ghost use Rattle.std.specs.Prelude.{◌≡◌, IfOk};

use std::alloc::Global;
use sub_number::{Bytes, NoMemory, Text};

/// A file with ids of tests, each followed by a newline.
#[derive(Drop)]
pub struct IdFile {
    /// Its name.
    pub name: Text,
    /// What stands in it.
    pub bytes: Bytes,
}

/// A command for the shell, and the file that it reads the ids of its tests from, if it does.
#[derive(Drop)]
pub struct Job {
    /// The command, which is UTF-8 without NUL.
    pub command: Bytes,
    /// The file is there before the command is started.
    pub id_file: Option<IdFile>,
}

impl Job {
    /// Another job of the same parts.
    pub fn copy(&self, alloc: Global) -> Result<Self, NoMemory>
        ensures { IfOk result (λ job. job ≡ self.now) }
    {
        let command = Bytes::new(alloc, self.command.bytes())?;
        let id_file = copied_file(alloc, &self.id_file)?;
        Ok(Job { command, id_file })
    }
}

fn copied_file(alloc: Global, file: &Option<IdFile>) -> Result<Option<IdFile>, NoMemory>
    ensures { IfOk result (λ copy. copy ≡ file.now) }
{
    match file {
        Some(file) => Ok(Some(IdFile {
            name: file.name.copy()?,
            bytes: Bytes::new(alloc, file.bytes.bytes())?,
        })),
        None => Ok(None),
    }
}
