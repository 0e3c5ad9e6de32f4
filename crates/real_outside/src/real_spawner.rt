// The shell as a spawner.
ghost use Rattle.std.specs.Prelude.{None};

use crate::cause::Cause;
use crate::fault_count::Faults;
use crate::programs::Programs;
use crate::real_child::RealChild;
use crate::written_ids::{LeftIds, WrittenIds};
use edge_io::{Failed, Job, Spawner};
use std::alloc::Global;
use std::fs::{File, Files};
use std::io::ErrorKind;
use std::process::{Command, OpenProcess, Processes, Stdio};
use std::{io, process};

/// Where a program that is started writes its errors.
#[derive(Clone, Copy)]
pub enum Errors {
    /// Where this program does.
    Inherited,
    /// To the null device.
    Dropped,
}

/// Starts each command as `sh -c COMMAND` in the current folder, with an empty standard input, a pipe as standard output,
/// and standard error as was said. Counts the starts that fail.
#[derive(Drop)]
pub struct RealSpawner<'r, R: Processes> {
    rt: &'r R,
    alloc: Global,
    errors: Errors,
    // Where the programs that it starts stand beside each other.
    programs: Option<&'r Programs<R::Started>>,
    // What the first start removes.
    left: Option<LeftIds>,
    faults: Faults,
}

impl<'r, R: Processes> RealSpawner<'r, R> {
    /// No start has failed yet.
    pub fn new(alloc: Global, rt: &'r R, errors: Errors) -> Self {
        RealSpawner {
            rt,
            alloc,
            errors,
            programs: None,
            left: None,
            faults: Faults::new(),
        }
    }

    /// The same, whose programs stand among these: where one is stopped all are.
    pub fn among(self, programs: &'r Programs<R::Started>) -> Self {
        RealSpawner {
            programs: Some(programs),
            ..self
        }
    }

    /// The same, whose first start removes files of ids before, which programs have left that were killed: the regular files
    /// of the current folder whose names are `front` and a number below `count`. No other program may have one in use then.
    pub fn clearing(self, front: &'static str, count: u32) -> Self {
        RealSpawner {
            left: Some(LeftIds { front, count }),
            ..self
        }
    }

    /// Why the last start that failed did so.
    pub fn cause(&self) -> Option<&Cause> {
        self.faults.cause.as_ref()
    }
}

impl<'r, R> Spawner for RealSpawner<'r, R>
where
    R: Processes + Files<File = File> + Sync,
    R::Started: Send,
    <R::Started as OpenProcess>::Stdin: Send,
    <R::Started as OpenProcess>::Stdout: Send,
    <R::Started as OpenProcess>::Stderr: Send,
{
    type Child = RealChild<'r, R>;

    ghost seen = { λ s. record { told = None; faults = s.faults.count } };

    /// Writes the file of ids, where the job has one, and then starts the shell. Where that fails the file is removed.
    fn start(&mut self, job: &Job) -> Result<RealChild<'r, R>, Failed> {
        if let Some(left) = self.left.take() {
            left.remove(self.alloc, self.rt);
        }
        match started(self.alloc, self.rt, self.errors, self.programs, job) {
            Ok(child) => Ok(child),
            Err(cause) => Err(self.faults.fail(cause)),
        }
    }
}

fn started<'r, R: Processes + Files<File = File>>(
    alloc: Global,
    rt: &'r R,
    errors: Errors,
    programs: Option<&'r Programs<R::Started>>,
    job: &Job,
) -> Result<RealChild<'r, R>, Cause> {
    let ids = match &job.id_file {
        Some(file) => Some(WrittenIds::write(alloc, rt, file)?),
        None => None,
    };
    match spawned(alloc, rt, errors, job.command.bytes()) {
        Ok(process) => Ok(RealChild::new(rt, programs, process, ids)),
        Err(error) => {
            if let Some(ids) = ids {
                ids.remove(rt);
            }
            Err(Cause::new("start", "sh", error))
        }
    }
}

fn spawned<R: Processes>(
    alloc: Global,
    rt: &R,
    errors: Errors,
    command: &[u8],
) -> io::Result<process::Child<R::Started>> {
    let text = match str::from_utf8(command) {
        Ok(text) => text,
        Err(_) => return Err(io::Error::from(ErrorKind::InvalidInput)),
    };
    let mut shell = Command::new(alloc, "sh")?;
    shell.arg("-c")?.arg(text)?;
    shell
        .stdin(Stdio::null())
        .stdout(Stdio::piped())
        .stderr(stream_of(errors));
    shell.spawn(rt)
}

// A descriptor that is closed would be that of the next file which the child opens.
fn stream_of(errors: Errors) -> Stdio {
    match errors {
        Errors::Inherited => Stdio::inherit(),
        Errors::Dropped => Stdio::null(),
    }
}
