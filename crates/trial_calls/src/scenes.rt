//! What a call of the program finds, and which calls of the outside fail.
ghost use Rattle.std.specs.Prelude.{◌≡◌, ◌↔◌, IsTrue, [], length};
ghost use Rattle.edge_io.specs.Planned.{spawning_of};

use crate::call_outcome::CallOutcome;
use crate::calls::call_with;
use crate::folders::put;
use crate::projects::{Project, project_with};
use edge_io::{Finish, MemShelf};
use std::alloc::Global;
use std::sync::Wait;
use std::test::Fail;
use std::thread::Threads;

/// Names and bytes of files.
pub type NamedFiles<'a> = &'a [(&'a [u8], &'a [u8])];

/// What a call of the program finds. Calls of the outside that fail are listed by their numbers from 0.
#[derive(Clone, Copy)]
pub struct Scene<'a> {
    /// The words.
    pub words: &'a [&'a str],
    /// The files of the project.
    pub files: NamedFiles<'a>,
    /// The files of the folder of runs.
    pub runs: NamedFiles<'a>,
    /// What the programs give that are started, and how they end, in the order of the starts.
    pub outputs: &'a [(&'a [u8], Finish)],
    /// The reads of the project's files that fail.
    pub reads: &'a [u64],
    /// The calls of the folder of runs that fail.
    pub calls: &'a [u64],
    /// The starts that fail.
    pub starts: &'a [u64],
    /// The writes of the output that fail.
    pub writes: &'a [u64],
}

/// What a call of the program left.
#[derive(Drop)]
pub struct Played {
    /// What it told.
    pub told: CallOutcome,
    /// The project, with the jobs that were started.
    pub project: Project,
    /// The folder of runs.
    pub shelf: MemShelf,
}

impl Played {
    /// Whether so many programs were started, and the call answered this status, wrote this line to the sink of errors, and
    /// wrote nothing to the output.
    pub fn refuses(&self, started: usize, status: u8, line: &[u8]) -> bool
        ensures { IsTrue result ↔ ((length (spawning_of self.now.project.spawner).started ≡ started) × ((self.now.told.status ≡ status) × ((self.now.told.out.items ≡ []) × (self.now.told.err.items ≡ line.now)))) }
    {
        self.project.spawner.started().len() == started && self.told.is(status, b"", line)
    }
}

/// Calls the program on what it finds.
pub fn play<R: Threads + Wait + Sync + AllocGlobal>(
    rt: &R,
    scene: &Scene<'_>,
) -> Result<Played, Fail> {
    let alloc = rt.alloc();
    let mut shelf = folder_with(alloc, scene.runs, scene.calls)?;
    let mut project = project_with(alloc, scene.files, scene.outputs, scene.reads, scene.starts)?;
    let Project { site, spawner } = &mut project;
    let told = call_with(rt, scene.words, &mut shelf, spawner, site, scene.writes)?;
    Ok(Played {
        told,
        project,
        shelf,
    })
}

// A folder with these files, that fails at these calls.
fn folder_with(alloc: Global, files: NamedFiles<'_>, fails: &[u64]) -> Result<MemShelf, Fail> {
    let mut shelf = MemShelf::new(alloc, fails.to_vec(alloc)?);
    for (name, bytes) in files {
        put(alloc, &mut shelf, name, bytes)?;
    }
    Ok(shelf)
}
