//! Commands that are tried, each with what it finds, what it tells where nothing fails, and how many calls it makes.

ghost use Rattle.std.specs.Prelude.{◌≡◌, None};
ghost use Rattle.edge_io.specs.MemState.{folder_of};

use crate::breaking::Object;
use edge_io::{Finish, MemShelf};
use std::alloc::Global;
use std::test::Fail;
use trial_calls::{NOTHING, NamedFiles, PASSED_AS_1, put, repository};

/// What stands in the folder that a command finds.
#[derive(Clone, Copy, PartialEq, Eq)]
pub enum Found {
    /// Nothing.
    Nothing,
    /// A repository without a run.
    NoRun,
    /// A repository of one run, and both caches.
    OneRun,
}

/// A command, what it finds, and what it does where nothing fails. A read of its input gives five bytes, and so does one of a
/// program.
#[derive(Clone, Copy)]
pub struct Script<'a> {
    /// The words.
    pub words: &'a [&'a str],
    /// The files of the project.
    pub files: NamedFiles<'a>,
    /// What it finds in the folder.
    pub found: Found,
    /// What the programs give that are started, and how they end, in the order of the starts.
    pub outputs: &'a [(&'a [u8], Finish)],
    /// The input.
    pub input: &'a [u8],
    /// Its status.
    pub status: u8,
    /// What the output takes.
    pub out: &'a [u8],
    /// Whether the output takes some of it before all else is done.
    pub early: bool,
    /// How many calls of the folder there are.
    pub folder: u64,
    /// How many reads of the files.
    pub files_read: u64,
    /// How many programs are started.
    pub started: u64,
    /// How many reads of the input.
    pub input_read: u64,
    /// How many writes of the output. A command writes a short text at once.
    pub written: u64,
    /// The number of the call of the folder that names what is made.
    pub named: u64,
    /// What the next two commands tell of the folder before that.
    pub before: Answers<'a>,
    /// What they tell behind it.
    pub behind: Answers<'a>,
    /// The name of the new run.
    pub run: &'a str,
    /// Its bytes: one of these; none where no run is made.
    pub kept: &'a [&'a [u8]],
}

impl Script<'_> {
    /// How many calls of this object there are.
    pub fn calls(&self, object: Object) -> u64 {
        match object {
            Object::Folder => self.folder,
            Object::Files => self.files_read,
            Object::Spawner => self.started,
            Object::Input => self.input_read,
            Object::Output => self.written,
        }
    }
}

/// The number of no call.
pub const NEVER: u64 = u64::MAX;

/// What `testr failing --list` tells, and what a load of `foo` tells behind it, which passes: of each the status, the bytes of the
/// output, and those of the errors' sink.
pub type Answers<'a> = [(u8, &'a [u8], &'a [u8]); 2];

/// Of the run that is there.
pub const OF_ONE_RUN: Answers<'static> = [(1, b"foo\n", NOTHING), (0, PASSED_AS_1, NOTHING)];

/// Of it and a run in which no test failed.
pub const OF_TWO_RUNS: Answers<'static> = [
    (0, NOTHING, NOTHING),
    (0, b"Ran 1 tests\nPASSED (id=2)\n", NOTHING),
];

/// The run that is there: `foo` began at 100 s, and failed 1.5 s later.
pub const EARLIER: &[u8] =
    b"\xb3\x2f\x02\x13\x00\x00\x00\x64\x00\x03foo\x01\x30\x1f\xef\x4a\x3a\xb3\x2f\x06\x16\x00\x00\x00\x65\xdd\xcd\x65\x00\x03foo\x01\x30\x58\x3e\xdd\x55";

/// A program that ends well.
pub const ENDED: Finish = Finish::Exit(0);

/// A command that finds that run, makes nothing, and writes once. Each script says what it does otherwise.
pub const QUIET: Script<'static> = Script {
    words: &[],
    files: &[],
    found: Found::OneRun,
    outputs: &[],
    input: NOTHING,
    status: 0,
    out: NOTHING,
    early: false,
    folder: 0,
    files_read: 0,
    started: 0,
    input_read: 0,
    written: 1,
    named: NEVER,
    before: OF_ONE_RUN,
    behind: OF_ONE_RUN,
    run: "1",
    kept: &[],
};

/// `a` and `b` are there.
pub const A_AND_B: &[u8] = b"\xb3\x29\x01\n\x01aw\xc8\x0f1\xb3\x29\x01\n\x01b\xee\xc1\x5e\x8b";

/// `a` passed, and `b` passed.
pub const A_PASSED: &[u8] = b"\xb3\x29\x03\n\x01a\xdd\xc1\xc7\xba";

pub const B_PASSED: &[u8] = b"\xb3\x29\x03\n\x01bD\xc8\x96\x00";

// What is kept of the one under lane 0 and of the other one under lane 1, in either order.
const A_AND_B_KEPT: &[&[u8]] = &[
    b"\xb3\x2d\x03\x0c\x01a\x010\x1e\x3e\x0eA\xb3\x2d\x03\x0c\x01b\x011\x6b\x7f\x80\x8e",
    b"\xb3\x2d\x03\x0c\x01b\x011\x6b\x7f\x80\x8e\xb3\x2d\x03\x0c\x01a\x010\x1e\x3e\x0eA",
];

/// A configuration whose tests can be listed.
pub const PROJECT: NamedFiles<'static> = &[(
    b".testr.conf",
    b"[DEFAULT]\ntest_command=run $LISTOPT\ntest_list_option=--list\n",
)];

/// A run of two workers: the tests are listed, and each worker passes one of them.
///
/// Four calls look at the runs, two read the times, one begins the run, two add to it, and three keep it. Two more read the times,
/// and each cache takes five. The configuration is read, and then its end: to see whether the project asks for instances, and once
/// more for the run.
pub const RUN: Script<'static> = Script {
    words: &["testr", "run", "--parallel", "--concurrency=2"],
    files: PROJECT,
    outputs: &[(A_AND_B, ENDED), (A_PASSED, ENDED), (B_PASSED, ENDED)],
    out: b"Ran 2 tests\nPASSED (id=1)\n",
    folder: 24,
    files_read: 4,
    started: 3,
    named: 10,
    behind: OF_TWO_RUNS,
    kept: A_AND_B_KEPT,
    ..QUIET
};

// The run that is there, and both caches, which cover it.
fn put_run(alloc: Global, shelf: &mut MemShelf) -> Result<(), Fail>
    requires { (folder_of shelf.old).disk.pending ≡ None }
{
    put(alloc, shelf, b"0", EARLIER)?;
    put(alloc, shelf, b"failing.set", b"subunit-failing 1\n1\nfoo\0")?;
    put(
        alloc,
        shelf,
        b"times.set",
        b"subunit-times 1\n1\nfoo\x001500000000\0",
    )
}

/// The folder that the command finds, which fails at these calls.
pub fn folder(alloc: Global, found: Found, fails: &[u64]) -> Result<MemShelf, Fail> {
    match found {
        Found::Nothing => Ok(MemShelf::new(alloc, fails.to_vec(alloc)?)),
        Found::NoRun => repository(alloc, fails),
        Found::OneRun => with_run(alloc, fails),
    }
}

// A repository of that run.
fn with_run(alloc: Global, fails: &[u64]) -> Result<MemShelf, Fail> {
    let mut shelf = repository(alloc, fails)?;
    put_run(alloc, &mut shelf)?;
    Ok(shelf)
}
