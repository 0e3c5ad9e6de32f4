//! The workers of `testr run`: how many there are, which tests each one is told, and what comes of the order in which they
//! give their packets.

use crate::configured::project_beside;
use edge_io::{Child, Failed, Finish, Job, MapSite, Spawner};
use std::alloc::Global;
use std::sync::atomic::{AtomicU32, Ordering};
use std::sync::{Arc, Wait};
use std::test::Fail;
use std::thread;
use std::thread::Threads;
use sub_number::{Bytes, Text};
use trial_calls::{
    FOO, NOTHING, NamedFiles, PASSED_AS_0, Project, Scene, call_in, call_with, has_file,
    has_started, has_two, long_log, play, project_of, put_file, repository, shows,
};

const GOOD: &[u8] = b"[DEFAULT]\ntest_command=run\n";

const COUNTED: &[u8] = b"[DEFAULT]\ntest_command=run\ntest_run_concurrency=count\n";

const EMPTY: NamedFiles<'static> = &[(b"format", b"subunit-store 1\n")];

const ENDED: Finish = Finish::Exit(0);

const THREE: &[u8] = b"a\nb\nc\n";

// Nothing fails, and each worker gives nothing.
const CALM: Scene<'static> = Scene {
    words: &["testr", "run", "--parallel", "--load-list=l"],
    files: &[],
    runs: EMPTY,
    outputs: &[(NOTHING, ENDED); 70],
    reads: &[],
    calls: &[],
    starts: &[],
    writes: &[],
};

// How many programs a run starts that is done, or none where it is not.
fn count_started<R: Threads + Wait + Sync + AllocGlobal>(
    rt: &R,
    scene: &Scene<'_>,
) -> Result<Option<usize>, Fail> {
    let played = play(rt, scene)?;
    if played.told.status > 1
        || played.told.out.as_slice() != b"Ran 0 tests\nPASSED (id=0)\n".as_slice()
    {
        return Ok(None);
    }
    Ok(Some(played.project.spawner.started().len()))
}

#[test]
fn a_number_that_is_called_out_is_that_of_the_workers(rt: HostRuntime) -> Result<(), Fail> {
    let files: NamedFiles<'_> = &[(b".testr.conf", COUNTED), (b"l", THREE)];
    // The count job, and the workers: one where there is no number and no table of processors, and none without a test.
    let table = [
        (b"0\n".as_slice(), 2),
        (b"1", 2),
        (b" \t2\r\n", 3),
        (b"002", 3),
        (b"3", 4),
        (b"999999999", 4),
    ];
    for (output, started) in table {
        let outputs = [
            (output, ENDED),
            (NOTHING, ENDED),
            (NOTHING, ENDED),
            (NOTHING, ENDED),
        ];
        let scene = Scene {
            files,
            outputs: &outputs,
            ..CALM
        };
        assert_eq!(rt; count_started(&rt, &scene)?, Some(started));
    }
    Ok(())
}

// So many lines, each another id.
fn many_ids(alloc: Global, count: u8) -> Result<Vec<u8>, Fail> {
    let mut lines = Vec::new(alloc);
    for number in 0..count {
        lines.push(b'a' + number / 16)?;
        lines.push(b'a' + number % 16)?;
        lines.push(b'\n')?;
    }
    Ok(lines)
}

// The same line so often.
fn repeated(alloc: Global, line: &[u8], count: u8) -> Result<Vec<u8>, Fail> {
    let mut lines = Vec::new(alloc);
    for _ in 0..count {
        lines.extend_from_slice(line)?;
    }
    Ok(lines)
}

// Each program tells of 65 workers, and of no test.
const TELLING: &[(&[u8], Finish)] = &[(SIXTY_FIVE, ENDED); 70];

const SIXTY_FIVE: &[u8] = b"65";

// How many programs a run starts that has this list of ids and this table of processors, where it is done.
fn count_for<R: Threads + Wait + Sync + AllocGlobal>(
    rt: &R,
    words: &[&str],
    conf: &[u8],
    ids: &[u8],
    table: &[u8],
) -> Result<Option<usize>, Fail> {
    let alloc = rt.alloc();
    let mut shelf = repository(alloc, &[])?;
    let mut project = project_of(alloc, conf, TELLING, &[], &[])?;
    put_file(alloc, &mut project, b"l", ids)?;
    put_file(alloc, &mut project, b"/proc/cpuinfo", table)?;
    let told = call_in(rt, words, &mut shelf, &mut project, &[])?;
    if told.status > 1 {
        return Ok(None);
    }
    Ok(Some(project.spawner.started().len()))
}

const COUNTING: [&str; 4] = ["testr", "run", "--parallel", "--load-list=l"];

const ASKING: [&str; 5] = [
    "testr",
    "run",
    "--parallel",
    "--load-list=l",
    "--concurrency=64",
];

const ASKING_MORE: [&str; 5] = [
    "testr",
    "run",
    "--parallel",
    "--load-list=l",
    "--concurrency=65",
];

#[test]
fn there_are_64_workers_at_most(rt: HostRuntime) -> Result<(), Fail> {
    let alloc = rt.alloc();
    let ids = many_ids(alloc, 65)?;
    let table = repeated(alloc, b"processor\t: 7\n", 66)?;
    assert_eq!(rt; count_for(&rt, &COUNTING, GOOD, &ids, &table)?, Some(64));
    assert_eq!(rt; count_for(&rt, &ASKING, GOOD, &ids, NOTHING)?, Some(64));
    assert_eq!(rt;
        count_for(&rt, &ASKING_MORE, GOOD, &ids, NOTHING)?,
        Some(64)
    );
    // The program that tells the number is one more.
    assert_eq!(rt;
        count_for(&rt, &COUNTING, COUNTED, &ids, NOTHING)?,
        Some(65)
    );
    Ok(())
}

#[test]
fn a_worker_without_a_test_is_not_started(rt: HostRuntime) -> Result<(), Fail> {
    assert_eq!(rt; count_for(&rt, &ASKING, GOOD, THREE, NOTHING)?, Some(3));
    assert_eq!(rt; count_for(&rt, &COUNTING, GOOD, THREE, NOTHING)?, Some(1));
    assert_eq!(rt; count_for(&rt, &ASKING, GOOD, NOTHING, NOTHING)?, Some(0));
    Ok(())
}

#[test]
fn lines_of_the_table_that_begin_so_are_processors(rt: HostRuntime) -> Result<(), Fail> {
    let table = b"processor\n processor\nprocessors\nProcessor\n\nprocessor\t: 1";
    let ids = b"a\nb\nc\nd\ne\n";
    assert_eq!(rt; count_for(&rt, &COUNTING, GOOD, ids, table)?, Some(3));
    Ok(())
}

#[test]
fn a_list_of_ids_has_one_in_each_line(rt: HostRuntime) -> Result<(), Fail> {
    let table = [
        (b"b\na".as_slice(), b"b\na\n".as_slice()),
        (b" a\t\n\n\x0b\x0cb \r\n\t\na\nc", b"a\nb\nc\n"),
        (b"a b\n-\n$x\n", b"a b\n-\n$x\n"),
        (b"\xc3\xa9\n\xc2\xa0\n", b"\xc3\xa9\n\xc2\xa0\n"),
    ];
    for (list, ids) in table {
        let files: NamedFiles<'_> = &[(b".testr.conf", GOOD), (b"l", list)];
        let words = ["testr", "run", "--load-list=l"];
        let played = play(
            &rt,
            &Scene {
                words: &words,
                files,
                ..CALM
            },
        )?;
        // No test ran that was asked for.
        assert_eq!(rt; played.told.status, 1);
        assert!(rt; has_started(&played.project, &[[b"run", b".testr-ids.0", ids]]));
    }
    Ok(())
}

#[test]
fn the_first_line_of_a_list_that_is_no_text_is_named(rt: HostRuntime) -> Result<(), Fail> {
    let table = [
        (
            b"\xff\n\0".as_slice(),
            b"testr: l line 1: not an id\n".as_slice(),
        ),
        (b"a\n\xff\nb\n", b"testr: l line 2: not an id\n"),
        (b"a\n\na\0b\n\xff\n", b"testr: l line 3: not an id\n"),
        (b"\n \xc3 \n", b"testr: l line 2: not an id\n"),
        (b"a\n\xed\xa0\x80", b"testr: l line 2: not an id\n"),
    ];
    for (list, line) in table {
        let files: NamedFiles<'_> = &[(b".testr.conf", GOOD), (b"l", list)];
        let words = ["testr", "run", "--load-list=l"];
        let played = play(
            &rt,
            &Scene {
                words: &words,
                files,
                ..CALM
            },
        )?;
        assert!(rt; played.refuses(0, 3, line));
    }
    Ok(())
}

// `foo` failed.
const FAILED: &[u8] = b"\xb3\x29\x06\x0c\x03foo\x15Po\xa3";

// What is kept where `foo` failed on lane 0 and passed on lane 1, by which of them came first.
const FAILED_FIRST: &[u8] =
    b"\xb3-\x06\x0e\x03foo\x010\xecO\xd5\x84\xb3-\x03\x0e\x03foo\x011\xd3\xa8\xebv";

const PASSED_FIRST: &[u8] =
    b"\xb3-\x03\x0e\x03foo\x011\xd3\xa8\xebv\xb3-\x06\x0e\x03foo\x010\xecO\xd5\x84";

const ONE_OF_TWO_REPORT: &[u8] =
    b"======================================================================\nFAIL: foo\n----------------------------------------------------------------------\nRan 2 tests\nFAILED (id=0, failures=1)\n";

// A child that gives one packet, once so many of the others have ended.
#[derive(Drop)]
struct Waiting {
    packet: Option<&'static [u8]>,
    turn: u32,
    ended: Arc<AtomicU32>,
    stopped: Arc<AtomicU32>,
    faults: u64,
}

impl Waiting {
    // Whether its turn comes within so many rounds.
    fn waits_for_turn(&self) -> bool {
        for _ in 0..1_000_000 {
            if self.ended.load(Ordering::SeqCst) >= self.turn {
                return true;
            }
            thread::yield_now();
        }
        false
    }
}

impl Child for Waiting {
    ghost use Rattle.std.specs.Prelude.{None};

    ghost seen = { λ s. record { told = None; faults = s.faults } };

    fn read(&mut self, buf: &mut [u8]) -> Result<usize, Failed> {
        let Some(packet) = self.packet else {
            return Ok(0);
        };
        if buf.len() < packet.len() || !self.waits_for_turn() {
            self.faults = self.faults.saturating_add(1);
            return Err(Failed);
        }
        self.packet = None;
        buf[..packet.len()].copy_from_slice(packet);
        Ok(packet.len())
    }

    fn wait(&mut self) -> Result<i32, Failed> {
        self.ended.fetch_add(1, Ordering::SeqCst);
        Ok(0)
    }

    fn stop(&mut self) {
        self.stopped.fetch_add(1, Ordering::SeqCst);
    }

    ghost are_bytes = { λ s. tt };

    ghost has_finish = { λ s. tt };
}

// Starts such children: of the first one `foo` fails, and passes of each later one. The start of this number fails.
#[derive(Drop)]
struct Turns {
    turns: [u32; 3],
    failing: usize,
    started: usize,
    ended: Arc<AtomicU32>,
    stopped: Arc<AtomicU32>,
    faults: u64,
}

impl Turns {
    fn new(alloc: Global, turns: [u32; 3], failing: usize) -> Result<Self, Fail> {
        Ok(Turns {
            turns,
            failing,
            started: 0,
            ended: Arc::new(alloc, AtomicU32::new(0))?,
            stopped: Arc::new(alloc, AtomicU32::new(0))?,
            faults: 0,
        })
    }

    // The next child, where there is one.
    fn next(&self) -> Option<Waiting> {
        if self.started == self.failing {
            return None;
        }
        Some(Waiting {
            packet: Some(if self.started == 0 { FAILED } else { FOO }),
            turn: *self.turns.get(self.started)?,
            ended: Arc::try_clone(&self.ended).ok()?,
            stopped: Arc::try_clone(&self.stopped).ok()?,
            faults: 0,
        })
    }
}

impl Spawner for Turns {
    type Child = Waiting;

    ghost use Rattle.std.specs.Prelude.{None};

    ghost seen = { λ s. record { told = None; faults = s.faults } };

    fn start(&mut self, _: &Job) -> Result<Waiting, Failed> {
        let Some(child) = self.next() else {
            self.faults = self.faults.saturating_add(1);
            return Err(Failed);
        };
        self.started = self.started.saturating_add(1);
        Ok(child)
    }
}

// The workers ran another test than they were asked for.
const OTHERS_RAN: &[u8] = b"testr: 3 of 3 tests that were asked for did not run\n  a\n  b\n  c\n";

// So did one of twelve.
const ANOTHER_RAN: &[u8] =
    b"testr: 12 of 12 tests that were asked for did not run\n  aa\n  ab\n  ac\n  ad\n  ae\n  af\n  ag\n  ah\n  ai\n  aj\n  and 2 more\n";

// A site with a configuration and a list of three tests.
fn site_of_three(alloc: Global) -> Result<MapSite, Fail> {
    let mut site = MapSite::new(alloc, Vec::new(alloc));
    site.put(Text::new(alloc, b".testr.conf")?, Bytes::new(alloc, GOOD)?)?;
    site.put(Text::new(alloc, b"l")?, Bytes::new(alloc, THREE)?)?;
    Ok(site)
}

#[test]
fn the_report_does_not_tell_in_which_order_the_workers_gave_their_packets(
    rt: HostRuntime,
) -> Result<(), Fail> {
    let alloc = rt.alloc();
    for (turns, run) in [([0, 1, 0], FAILED_FIRST), ([1, 0, 0], PASSED_FIRST)] {
        let mut shelf = repository(alloc, &[])?;
        let mut site = site_of_three(alloc)?;
        let mut spawner = Turns::new(alloc, turns, 3)?;
        let words = [
            "testr",
            "run",
            "--parallel",
            "--concurrency=2",
            "--load-list=l",
        ];
        let told = call_with(&rt, &words, &mut shelf, &mut spawner, &mut site, &[])?;
        assert!(rt; told.is(1, ONE_OF_TWO_REPORT, OTHERS_RAN));
        assert!(rt; has_file(&mut shelf, "0.part", run)?);
        assert_eq!(rt; spawner.ended.load(Ordering::SeqCst), 2);
        assert_eq!(rt; spawner.stopped.load(Ordering::SeqCst), 0);
    }
    Ok(())
}

#[test]
fn workers_before_a_start_that_fails_are_stopped_and_waited_for(
    rt: HostRuntime,
) -> Result<(), Fail> {
    let alloc = rt.alloc();
    for (failing, before) in [(0, 0), (1, 1), (2, 2)] {
        let mut shelf = repository(alloc, &[])?;
        let mut site = site_of_three(alloc)?;
        let mut spawner = Turns::new(alloc, [0, 0, 0], failing)?;
        let words = [
            "testr",
            "run",
            "--parallel",
            "--concurrency=3",
            "--load-list=l",
        ];
        let told = call_with(&rt, &words, &mut shelf, &mut spawner, &mut site, &[])?;
        assert!(rt; told.is(4, NOTHING, b"testr: fault starting a program\n"));
        assert_eq!(rt; spawner.stopped.load(Ordering::SeqCst), before);
        assert_eq!(rt; spawner.ended.load(Ordering::SeqCst), before);
        assert_eq!(rt; spawner.started, failing);
    }
    Ok(())
}

// Twelve programs, of which the last one gives this.
fn last_of_twelve(output: &[u8]) -> [(&[u8], Finish); 12] {
    let mut outputs = [(NOTHING, ENDED); 12];
    outputs[11] = (output, ENDED);
    outputs
}

// A project whose load list has twelve ids, and whose last program gives this.
fn project_of_twelve(alloc: Global, output: &[u8]) -> Result<Project, Fail> {
    let ids = many_ids(alloc, 12)?;
    project_beside(alloc, GOOD, &last_of_twelve(output), b"l", &ids)
}

// The last worker's packet is too long for its route, which takes three bytes.
#[test]
fn the_last_of_twelve_workers_may_give_a_test_in_two_halves(rt: HostRuntime) -> Result<(), Fail> {
    let alloc = rt.alloc();
    let packet = long_log(alloc)?;
    let mut project = project_of_twelve(alloc, &packet)?;
    let mut shelf = repository(alloc, &[])?;
    let wanted = (0, PASSED_AS_0, ANOTHER_RAN);
    assert!(rt; shows(&rt, &ASKING, &mut shelf, &mut project, wanted)?);
    let first = b"\xb3\x2d\x40\xa0\x00\x0d\x03foo\x03log\x9f\xff";
    let second = b"\xb3\x2d\x43\xa0\x00\x0d\x03foo\x03log\x9f\xff";
    assert!(rt; has_two(&mut shelf, "0.part", 2_097_165, first, second)?);
    Ok(())
}
