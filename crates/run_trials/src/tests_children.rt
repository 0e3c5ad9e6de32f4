//! Workers that are watched: the orders in which they give their packets, and that they are read to their ends.

use crate::configured::site_with;
use edge_io::{Child, Failed, Job, Shelf, Spawner};
use std::alloc::Global;
use std::sync::Arc;
use std::sync::atomic::{AtomicU32, Ordering};
use std::test::Fail;
use std::thread;
use trial_calls::{
    FOO, FOO_KEPT, NOTHING, NamedFiles, SHELF_FAULT, call_with, has_file, put, repository,
};

const CONF: &[u8] = b"[DEFAULT]\ntest_command=run\n";

// `foo` was begun, and failed.
const BEGUN: &[u8] = b"\xb3\x29\x02\x0c\x03foo\x8e\xc1\x2d\xb5";

const FAILED: &[u8] = b"\xb3\x29\x06\x0c\x03foo\x15\x50\x6f\xa3";

// What two workers give, the two packets of each in turn: `foo` is begun and fails on lane 0, and is begun and passes on
// lane 1.
const GIVEN: [&[u8]; 4] = [BEGUN, FAILED, BEGUN, FOO];

// What is kept of these packets.
const KEPT: [&[u8]; 4] = [
    b"\xb3\x2d\x02\x0e\x03foo\x01\x30\x68\x05\xdb\x7e",
    b"\xb3\x2d\x06\x0e\x03foo\x01\x30\xec\x4f\xd5\x84",
    b"\xb3\x2d\x02\x0e\x03foo\x01\x31\x1f\x02\xeb\xe8",
    b"\xb3\x2d\x03\x0e\x03foo\x01\x31\xd3\xa8\xeb\x76",
];

// All orders in which they can come, as places in these lists: each worker's own two stay in turn.
const ORDERS: [[usize; 4]; 6] = [
    [0, 1, 2, 3],
    [0, 2, 1, 3],
    [0, 2, 3, 1],
    [2, 0, 1, 3],
    [2, 0, 3, 1],
    [2, 3, 0, 1],
];

const ONE_OF_TWO_REPORT: &[u8] =
    b"======================================================================\nFAIL: foo\n----------------------------------------------------------------------\nRan 2 tests\nFAILED (id=0, failures=1)\n";

// At which turn the packet of this place comes.
fn turn_of(order: &[usize], packet: usize) -> u32 {
    let mut turn: u32 = 0;
    for other in order {
        if *other == packet {
            break;
        }
        turn = turn.saturating_add(1);
    }
    turn
}

// What is kept of the packet of this place, if there is one.
fn kept_of(packet: usize) -> &'static [u8] {
    match KEPT.get(packet) {
        Some(kept) => kept,
        None => NOTHING,
    }
}

// A loop that owns nothing, so that an early end drops nothing.
fn put_kept(run: &mut Vec<u8>, order: &[usize]) -> Result<(), Fail> {
    for packet in order {
        run.extend_from_slice(kept_of(*packet))?;
    }
    Ok(())
}

// What is kept where the packets come in this order.
fn run_of(alloc: Global, order: &[usize]) -> Result<Vec<u8>, Fail> {
    let mut run = Vec::new(alloc);
    put_kept(&mut run, order)?;
    Ok(run)
}

// A child that gives each of two packets at its turn. A turn ends with the child's next read: what it gave was handed on
// then.
#[derive(Drop)]
struct Scheduled {
    packets: [&'static [u8]; 2],
    turns: [u32; 2],
    given: usize,
    ended: Arc<AtomicU32>,
    faults: u64,
}

impl Scheduled {
    // The packet that comes next, and its turn.
    fn next(&self) -> Option<(&'static [u8], u32)> {
        let packet = *self.packets.get(self.given)?;
        let turn = *self.turns.get(self.given)?;
        Some((packet, turn))
    }

    // Whether this turn comes within so many rounds.
    fn waits_for_turn(&self, turn: u32) -> bool {
        for _ in 0..1_000_000 {
            if self.ended.load(Ordering::SeqCst) >= turn {
                return true;
            }
            thread::yield_now();
        }
        false
    }
}

impl Child for Scheduled {
    ghost use Rattle.std.specs.Prelude.{None};

    ghost seen = { λ s. record { told = None; faults = s.faults } };

    fn read(&mut self, buf: &mut [u8]) -> Result<usize, Failed> {
        if self.given > 0 {
            self.ended.fetch_add(1, Ordering::SeqCst);
        }
        let Some((packet, turn)) = self.next() else {
            return Ok(0);
        };
        if buf.len() < packet.len() || !self.waits_for_turn(turn) {
            self.faults = self.faults.saturating_add(1);
            return Err(Failed);
        }
        buf[..packet.len()].copy_from_slice(packet);
        self.given = self.given.saturating_add(1);
        Ok(packet.len())
    }

    fn wait(&mut self) -> Result<i32, Failed> {
        Ok(0)
    }

    fn stop(&mut self) {}

    ghost are_bytes = { λ s. tt };

    ghost has_finish = { λ s. tt };
}

// Starts the two workers, whose packets come in this order.
#[derive(Drop)]
struct Schedule {
    order: [usize; 4],
    started: usize,
    ended: Arc<AtomicU32>,
    faults: u64,
}

impl Schedule {
    fn new(alloc: Global, order: [usize; 4]) -> Result<Self, Fail> {
        Ok(Schedule {
            order,
            started: 0,
            ended: Arc::new(alloc, AtomicU32::new(0))?,
            faults: 0,
        })
    }

    // The next child, where there is one.
    fn next(&self) -> Option<Scheduled> {
        let (first, second) = match self.started {
            0 => (0, 1),
            1 => (2, 3),
            _ => return None,
        };
        Some(Scheduled {
            packets: [GIVEN[first], GIVEN[second]],
            turns: [turn_of(&self.order, first), turn_of(&self.order, second)],
            given: 0,
            ended: Arc::try_clone(&self.ended).ok()?,
            faults: 0,
        })
    }
}

impl Spawner for Schedule {
    type Child = Scheduled;

    ghost use Rattle.std.specs.Prelude.{None};

    ghost seen = { λ s. record { told = None; faults = s.faults } };

    fn start(&mut self, _: &Job) -> Result<Scheduled, Failed> {
        let Some(child) = self.next() else {
            self.faults = self.faults.saturating_add(1);
            return Err(Failed);
        };
        self.started = self.started.saturating_add(1);
        Ok(child)
    }
}

// A configuration and a list of two tests.
const TWO_TESTS: NamedFiles<'static> = &[(b".testr.conf", CONF), (b"l", b"a\nb\n")];

// The workers ran another test than they were asked for.
const OTHERS_RAN: &[u8] = b"testr: 2 of 2 tests that were asked for did not run\n  a\n  b\n";

#[test]
fn in_whatever_order_packets_come_they_are_kept_so_and_say_the_same(
    rt: HostRuntime,
) -> Result<(), Fail> {
    let alloc = rt.alloc();
    for order in ORDERS {
        let mut shelf = repository(alloc, &[])?;
        let mut site = site_with(alloc, TWO_TESTS)?;
        let mut spawner = Schedule::new(alloc, order)?;
        let words = [
            "testr",
            "run",
            "--parallel",
            "--concurrency=2",
            "--load-list=l",
        ];
        let told = call_with(&rt, &words, &mut shelf, &mut spawner, &mut site, &[])?;
        assert!(rt; told.is(1, ONE_OF_TWO_REPORT, OTHERS_RAN));
        let run = run_of(alloc, &order)?;
        assert!(rt; has_file(&mut shelf, "0.part", &run)?);
        let words = ["testr", "failing", "--list"];
        let told = call_with(&rt, &words, &mut shelf, &mut spawner, &mut site, &[])?;
        assert!(rt; told.is(1, b"foo\n", NOTHING));
    }
    Ok(())
}

// Bytes that are no packet.
const FOREIGN: [u8; 4096] = [b'x'; 4096];

// How often a child's end was read, and how often it was waited for and stopped.
#[derive(Drop)]
struct Counts {
    ends: AtomicU32,
    waits: AtomicU32,
    stops: AtomicU32,
}

// A child that gives so many bytes more that are no packet.
#[derive(Drop)]
struct Long {
    left: usize,
    counts: Arc<Counts>,
    faults: u64,
}

impl Child for Long {
    ghost use Rattle.std.specs.Prelude.{None};

    ghost seen = { λ s. record { told = None; faults = s.faults } };

    fn read(&mut self, buf: &mut [u8]) -> Result<usize, Failed> {
        if self.left == 0 {
            self.counts.ends.fetch_add(1, Ordering::SeqCst);
            return Ok(0);
        }
        let count = self.left.min(FOREIGN.len()).min(buf.len());
        buf[..count].copy_from_slice(&FOREIGN[..count]);
        self.left -= count;
        Ok(count)
    }

    fn wait(&mut self) -> Result<i32, Failed> {
        self.counts.waits.fetch_add(1, Ordering::SeqCst);
        Ok(0)
    }

    fn stop(&mut self) {
        self.counts.stops.fetch_add(1, Ordering::SeqCst);
    }

    ghost are_bytes = { λ s. tt };

    ghost has_finish = { λ s. tt };
}

// Starts children that give so many bytes each.
#[derive(Drop)]
struct Longs {
    size: usize,
    counts: Arc<Counts>,
    faults: u64,
}

impl Spawner for Longs {
    type Child = Long;

    ghost use Rattle.std.specs.Prelude.{None};

    ghost seen = { λ s. record { told = None; faults = s.faults } };

    fn start(&mut self, _: &Job) -> Result<Long, Failed> {
        let Ok(counts) = Arc::try_clone(&self.counts) else {
            self.faults = self.faults.saturating_add(1);
            return Err(Failed);
        };
        Ok(Long {
            left: self.size,
            counts,
            faults: 0,
        })
    }
}

// Nothing was counted.
fn no_counts(alloc: Global) -> Result<Arc<Counts>, Fail> {
    let counts = Counts {
        ends: AtomicU32::new(0),
        waits: AtomicU32::new(0),
        stops: AtomicU32::new(0),
    };
    Ok(Arc::new(alloc, counts)?)
}

#[test]
fn an_endless_worker_is_stopped_where_the_folder_fails(rt: HostRuntime) -> Result<(), Fail> {
    let alloc = rt.alloc();
    // Four calls look at the runs, one begins the new one, and the third one behind it fails.
    let mut shelf = repository(alloc, &[7])?;
    put(alloc, &mut shelf, b"0", FOO_KEPT)?;
    let mut site = site_with(alloc, TWO_TESTS)?;
    let counts = no_counts(alloc)?;
    let mut spawner = Longs {
        size: usize::MAX,
        counts: Arc::try_clone(&counts)?,
        faults: 0,
    };
    let words = ["testr", "run"];
    let told = call_with(&rt, &words, &mut shelf, &mut spawner, &mut site, &[])?;
    assert!(rt; told.is(4, NOTHING, SHELF_FAULT));
    assert_eq!(rt; counts.ends.load(Ordering::SeqCst), 0);
    assert_eq!(rt; counts.waits.load(Ordering::SeqCst), 1);
    assert_eq!(rt; counts.stops.load(Ordering::SeqCst), 1);
    assert_eq!(rt; shelf.length("1")?, None);
    assert!(rt; has_file(&mut shelf, "0", FOO_KEPT)?);
    Ok(())
}
