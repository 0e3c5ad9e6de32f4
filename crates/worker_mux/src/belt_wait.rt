//! Waiting for a move of the belt.
//!
//! A lane that found the belt full waits for a take, and the one that records, where it found the belt empty, for a put.
//! Each waits at a bell, which counts these moves, and the threads that sleep until the next one. A move takes no lock,
//! and where nobody sleeps no call of the system.
//!
//! No move is slept through. A thread reads the count of moves before it tries. Where it then has to wait, it counts
//! itself among the sleepers, and sleeps only if the count is still what it read: that look and the falling asleep are one
//! step. Who moves the belt counts the move, and looks at the sleepers after that. All these steps stand in one order. So
//! whoever counted itself before that look is seen and woken, and whoever did later finds the count changed.
//!
//! A take wakes one lane, and only where the belt is at most half full. A lane that is woken for each place that gets free
//! fills it and sleeps again, and each lot costs a change of threads. No lane is forgotten: a lane sleeps only behind a
//! full belt; the one that records takes until the belt is empty, so it takes some lots with the belt at most half full,
//! and each of these takes wakes one; the lane that woke puts a lot, and its take wakes the next one. While the one that
//! records drives a lane itself, the belt stays all but full, and the others sleep on.
//!
//! Nobody tries again and again before it sleeps: where all processors are busy, what is waited for comes only once the
//! waiting thread is off its own.

use std::sync::Wait;
use std::sync::atomic::{AtomicU64, Ordering};

/// Where threads wait for a move of the belt. No clause says that a waiter wakes, and a wait may end with no move.
#[derive(Drop)]
pub(crate) struct BeltWait {
    puts: Bell,
    takes: Bell,
    half: u64,
}

impl BeltWait {
    /// The gate of a belt with room for so many lots.
    pub(crate) fn new(room: usize) -> BeltWait {
        BeltWait {
            puts: Bell::new(),
            takes: Bell::new(),
            half: (room / 2) as u64,
        }
    }

    /// What a lane remembers before it tries to put.
    pub(crate) fn takes_so_far(&self) -> u64 {
        self.takes.moves()
    }

    /// What the one that records remembers before it tries to take.
    pub(crate) fn puts_so_far(&self) -> u64 {
        self.puts.moves()
    }

    /// Tells of a put.
    pub(crate) fn tell_put(&self) {
        self.puts.count();
        self.puts.wake_one();
    }

    /// Tells of a take.
    pub(crate) fn tell_take(&self) {
        let takes = self.takes.count();
        // A put is counted after it was made, so the belt may hold more than this says, and never less.
        if self.puts.moves().saturating_sub(takes) <= self.half {
            self.takes.wake_one();
        }
    }

    /// Tells all lanes to look at the flag that stops them.
    pub(crate) fn tell_stop(&self) {
        self.takes.count();
        self.takes.wake_all();
    }

    /// Waits for a take after the one that was remembered.
    pub(crate) fn wait_for_take<R: Wait>(&self, rt: &R, seen: u64) {
        self.takes.wait_past(rt, seen);
    }

    /// Waits for a put after the one that was remembered.
    pub(crate) fn wait_for_put<R: Wait>(&self, rt: &R, seen: u64) {
        self.puts.wait_past(rt, seen);
    }
}

// A count of moves, and of the threads that sleep until the next one.
#[derive(Drop)]
struct Bell {
    moves: AtomicU64,
    sleepers: AtomicU64,
}

impl Bell {
    fn new() -> Bell {
        Bell {
            moves: AtomicU64::new(0),
            sleepers: AtomicU64::new(0),
        }
    }

    fn moves(&self) -> u64 {
        self.moves.load(Ordering::SeqCst)
    }

    // Counts a move: how many there are with it.
    fn count(&self) -> u64 {
        self.moves.fetch_add(1, Ordering::SeqCst).wrapping_add(1)
    }

    fn wake_one(&self) {
        if self.sleepers.load(Ordering::SeqCst) != 0 {
            self.moves.wake_one();
        }
    }

    fn wake_all(&self) {
        if self.sleepers.load(Ordering::SeqCst) != 0 {
            self.moves.wake_all();
        }
    }

    // Sleeps until the next move, if there are no more moves than `seen`.
    fn wait_past<R: Wait>(&self, rt: &R, seen: u64) {
        self.sleepers.fetch_add(1, Ordering::SeqCst);
        self.moves.park(rt, (seen & 0xffff_ffff) as u32);
        self.sleepers.fetch_sub(1, Ordering::SeqCst);
    }
}
