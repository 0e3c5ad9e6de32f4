//! That the packets of a worker are recorded as they come.

use crate::configured::site_with;
use edge_io::{Child, Failed, Job, MemShelf, NamesFault, Shelf, Spawner};
use std::alloc::Global;
use std::process::Abort;
use std::sync::atomic::{AtomicBool, Ordering};
use std::sync::{Arc, Wait};
use std::test::Fail;
use std::thread;
use std::thread::Threads;
use sub_number::Text;
use trial_calls::{FOO, FOO_KEPT, NOTHING, NamedFiles, call_with, has_file, repository};

// A folder that notes when the packet is added to it.
#[derive(Drop)]
struct Noting<H> {
    inner: H,
    recorded: Arc<AtomicBool>,
}

impl<H: Shelf> Shelf for Noting<H> {
    ghost seen = { λ s. H.seen s.inner };

    ghost clock = { λ s. H.clock s.inner };

    fn names(&mut self, alloc: Global) -> Result<Vec<Text>, NamesFault> {
        self.inner.names(alloc)
    }

    fn length(&mut self, name: &str) -> Result<Option<u64>, Failed> {
        self.inner.length(name)
    }

    fn read_at(&mut self, name: &str, place: u64, buf: &mut [u8]) -> Result<usize, Failed> {
        self.inner.read_at(name, place, buf)
    }

    fn start_draft(&mut self) -> Result<(), Failed> {
        self.inner.start_draft()
    }

    fn append(&mut self, piece: &[u8]) -> Result<(), Failed> {
        if piece.starts_with(FOO_KEPT) {
            self.recorded.store(true, Ordering::SeqCst);
        }
        self.inner.append(piece)
    }

    fn sync_draft(&mut self) -> Result<(), Failed> {
        self.inner.sync_draft()
    }

    fn publish(&mut self, name: &str) -> Result<(), Failed> {
        self.inner.publish(name)
    }

    fn sync_folder(&mut self) -> Result<(), Failed> {
        self.inner.sync_folder()
    }

    ghost published_counts = { λ s. H.published_counts s.inner };
}

// A child that gives the packet, and ends once it has been recorded.
#[derive(Drop)]
struct Patient {
    given: bool,
    recorded: Arc<AtomicBool>,
    faults: u64,
}

impl Patient {
    // Whether it has been recorded within so many rounds.
    fn is_recorded(&self) -> bool {
        for _ in 0..1_000_000 {
            if self.recorded.load(Ordering::SeqCst) {
                return true;
            }
            thread::yield_now();
        }
        false
    }
}

impl Child for Patient {
    ghost use Rattle.std.specs.Prelude.{None};

    ghost seen = { λ s. record { told = None; faults = s.faults } };

    fn read(&mut self, buf: &mut [u8]) -> Result<usize, Failed> {
        if self.given || buf.len() < FOO.len() {
            if self.is_recorded() {
                return Ok(0);
            }
            self.faults = self.faults.saturating_add(1);
            return Err(Failed);
        }
        self.given = true;
        buf[..FOO.len()].copy_from_slice(FOO);
        Ok(FOO.len())
    }

    fn wait(&mut self) -> Result<i32, Failed> {
        Ok(0)
    }

    fn stop(&mut self) {}

    ghost are_bytes = { λ s. tt };

    ghost has_finish = { λ s. tt };
}

// Starts such children.
#[derive(Drop)]
struct Patients {
    recorded: Arc<AtomicBool>,
    faults: u64,
}

impl Spawner for Patients {
    type Child = Patient;

    ghost use Rattle.std.specs.Prelude.{None};

    ghost seen = { λ s. record { told = None; faults = s.faults } };

    fn start(&mut self, _: &Job) -> Result<Patient, Failed> {
        let Ok(recorded) = Arc::try_clone(&self.recorded) else {
            self.faults = self.faults.saturating_add(1);
            return Err(Failed);
        };
        Ok(Patient {
            given: false,
            recorded,
            faults: 0,
        })
    }
}

const BARE: NamedFiles<'static> = &[(b".testr.conf", b"[DEFAULT]\ntest_command=run\n")];

fn is_recorded_as_it_comes<R: Threads + Wait + Sync + AllocGlobal + Abort>(
    rt: &R,
    shelf: &mut Noting<MemShelf>,
    spawner: &mut Patients,
) -> Result<(), Fail> {
    let mut site = site_with(rt.alloc(), BARE)?;
    let words = ["testr", "run"];
    let told = call_with(rt, &words, shelf, spawner, &mut site, &[])?;
    assert!(rt; told.is(0, b"Ran 1 tests\nPASSED (id=0)\n", NOTHING));
    assert!(rt; has_file(&mut shelf.inner, "0", FOO_KEPT)?);
    Ok(())
}

// An empty repository that notes when the packet is added to it.
fn empty_and_noting(alloc: Global, recorded: Arc<AtomicBool>) -> Result<Noting<MemShelf>, Fail> {
    let inner = repository(alloc, &[])?;
    Ok(Noting { inner, recorded })
}

#[test]
fn a_packet_is_recorded_before_its_worker_ends(rt: HostRuntime) -> Result<(), Fail> {
    let recorded = Arc::new(rt.alloc(), AtomicBool::new(false))?;
    let mut spawner = Patients {
        recorded: Arc::try_clone(&recorded)?,
        faults: 0,
    };
    let mut shelf = empty_and_noting(rt.alloc(), recorded)?;
    is_recorded_as_it_comes(&rt, &mut shelf, &mut spawner)
}
