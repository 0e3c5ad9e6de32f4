// The programs that were started, where whoever meets a fault can stop them all.

use std::alloc::Global;
use std::process;
use std::process::OpenProcess;
use std::sync::{Mutex, MutexGuard};
use sub_number::NoMemory;

/// The programs that were started and not waited for yet: as many as there is room for.
#[derive(Drop)]
pub struct Programs<P: OpenProcess + Drop> {
    places: Vec<Mutex<Option<process::Child<P>>>>,
}

impl<P: OpenProcess + Drop> Programs<P> {
    /// None yet, and room for so many.
    pub fn new(alloc: Global, count: u32) -> Result<Self, NoMemory> {
        let mut places = Vec::new(alloc);
        for _ in 0..count {
            places.push(Mutex::new(None))?;
        }
        Ok(Programs { places })
    }

    /// Puts the program where none stands, and answers the place. Where there is no room it comes back.
    pub fn put(&self, process: process::Child<P>) -> Result<usize, process::Child<P>> {
        for place in 0..self.places.len() {
            if let Some(mut slot) = locked(&self.places[place])
                && slot.is_none()
            {
                *slot = Some(process);
                return Ok(place);
            }
        }
        Err(process)
    }

    /// Takes the program from the place, where one stands there. Then only who has it can stop it.
    pub fn take(&self, place: usize) -> Option<process::Child<P>> {
        locked(self.places.get(place)?)?.take()
    }

    /// Kills them all. Each stays in its place, to be waited for.
    pub fn stop(&self) {
        for slot in self.places.as_slice() {
            if let Some(mut slot) = locked(slot)
                && let Some(process) = &mut *slot
            {
                let _ = process.kill();
            }
        }
    }
}

// The lock of a place. Whoever has it makes one call of the system that does not wait, so it is asked for until it is free.
fn locked<T>(slot: &Mutex<T>) -> Option<MutexGuard<'_, T>> {
    for _ in 0..u64::MAX {
        if let Some(guard) = slot.try_lock() {
            return Some(guard);
        }
    }
    None
}
