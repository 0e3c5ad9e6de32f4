// A process of the system as a child.
ghost use Rattle.std.specs.Prelude.{None};
ghost use Rattle.std.specs.Io.{ReadsAtMost};

use crate::cause::{Cause, told};
use crate::fault_count::Faults;
use crate::programs::Programs;
use crate::stream_source::read_retried;
use crate::written_ids::WrittenIds;
use edge_io::{Child, Failed};
use std::fs::Files;
use std::io::ErrorKind;
use std::os::unix::process::ExitStatusExt;
use std::process::{ExitStatus, OpenProcess, Processes};
use std::{io, process};

const OUTPUT: &str = "the output of a program";

const PROGRAM: &str = "a program";

/// A shell that was started, whose standard output is a pipe. Counts the reads and waits that fail.
#[derive(Drop)]
pub struct RealChild<'r, R: Processes> {
    running: Running<'r, R>,
    faults: Faults,
}

// The shell, which stands among other programs or here, its output until it was stopped, and the file of ids that it reads
// until it was waited for.
#[derive(Drop)]
struct Running<'r, R: Processes> {
    rt: &'r R,
    among: Option<Place<'r, R>>,
    process: Option<process::Child<R::Started>>,
    output: Option<<R::Started as OpenProcess>::Stdout>,
    ids: Option<WrittenIds>,
}

// A place among programs.
#[derive(Drop)]
struct Place<'r, R: Processes> {
    programs: &'r Programs<R::Started>,
    number: usize,
}

impl<'r, R: Processes + Files> RealChild<'r, R> {
    /// The child over this process, whose file of ids is removed when it was waited for. It is put among the programs, where
    /// there are any and they have room: whoever stops one of these stops all.
    pub fn new(
        rt: &'r R,
        programs: Option<&'r Programs<R::Started>>,
        mut process: process::Child<R::Started>,
        ids: Option<WrittenIds>,
    ) -> Self {
        let output = process.stdout.take();
        let (among, process) = placed(programs, process);
        RealChild {
            running: Running {
                rt,
                among,
                process,
                output,
                ids,
            },
            faults: Faults::new(),
        }
    }

    /// Why the last read or wait that failed did so.
    pub fn cause(&self) -> Option<&Cause> {
        self.faults.cause.as_ref()
    }
}

// Puts the process among the programs, or gives it back.
fn placed<'r, R: Processes>(
    programs: Option<&'r Programs<R::Started>>,
    process: process::Child<R::Started>,
) -> (Option<Place<'r, R>>, Option<process::Child<R::Started>>) {
    let Some(programs) = programs else {
        return (None, Some(process));
    };
    match programs.put(process) {
        Ok(number) => (Some(Place { programs, number }), None),
        Err(process) => (None, Some(process)),
    }
}

impl<R: Processes + Files> Running<'_, R> {
    fn read(&mut self, buf: &mut [u8]) -> io::Result<usize>
        ensures { ReadsAtMost result buf.new }
    {
        match &mut self.output {
            Some(output) => read_retried(output, buf),
            None => Ok(0),
        }
    }

    // Who waits has the process for itself, so that no other has to wait for it. The file of ids is removed also where the
    // wait fails, since then the system has lost the child.
    fn wait(&mut self) -> io::Result<i32> {
        if let Some(place) = self.among.take() {
            self.process = place.programs.take(place.number);
        }
        let outcome = match &mut self.process {
            Some(process) => process.wait(),
            None => Err(io::Error::from(ErrorKind::NotFound)),
        };
        if let Some(ids) = self.ids.take() {
            ids.remove(self.rt);
        }
        number_of(outcome?)
    }

    fn stop(&mut self) {
        if let Some(place) = &self.among {
            place.programs.stop();
        }
        if let Some(process) = &mut self.process {
            let _ = process.kill();
        }
        self.output = None;
    }
}

impl<R: Processes + Files> Child for RealChild<'_, R> {
    ghost seen = { λ s. record { told = None; faults = s.faults.count } };

    ghost are_bytes = { λ _. tt };

    ghost has_finish = { λ _. tt };

    /// One read of the pipe. After a stop there is nothing more to read.
    fn read(&mut self, buf: &mut [u8]) -> Result<usize, Failed> {
        let result = self.running.read(buf);
        self.faults.counted(told("read", OUTPUT, result))
    }

    /// Waits for the shell. What it has started and left behind is not waited for.
    fn wait(&mut self) -> Result<i32, Failed> {
        let result = self.running.wait();
        self.faults.counted(told("wait for", PROGRAM, result))
    }

    /// Kills the shell, and all that stand among the same programs: a program is stopped where none is of use any more, and
    /// whoever waits for another's output then need not wait longer. Closes the pipe, so that what the shell has started is
    /// ended by its next write.
    fn stop(&mut self) {
        self.running.stop();
    }
}

// The exit status, or the signal's number below zero.
fn number_of(status: ExitStatus) -> io::Result<i32> {
    match (status.code(), status.signal()) {
        (Some(code), _) => Ok(code),
        (None, Some(signal)) => Ok(signal.wrapping_neg()),
        (None, None) => Err(io::Error::new(
            ErrorKind::InvalidData,
            "it neither exited nor was ended by a signal",
        )),
    }
}
