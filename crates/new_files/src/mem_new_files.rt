// Files in memory that take their names at the end.
ghost use Rattle.std.specs.Prelude.{◌≡◌, ◌≤◌, ◌↔◌, ℕ, List, [], Some, None, IsErr, IfOk, OnOk, OnErr, Contains};

use crate::NewFiles;
use edge_io::{Failed, ListSink, MapSite};
use std::alloc::Global;
use std::mem;
use sub_number::{Bytes, Text};

/// Files in memory by name. A call fails where it is told to, where a name is no text of fewer than 2^30 bytes, and for want
/// of memory.
#[derive(Drop)]
pub struct MemNewFiles {
    alloc: Global,
    site: MapSite,
    fails: Vec<u64>,
    writes: Vec<u64>,
    calls: u64,
    faults: u64,
}

impl MemNewFiles {
    ghost use Rattle.edge_io.specs.Causes.{HasCause, one_more, Rose};
    ghost use Rattle.edge_io.specs.Disk.{put};
    ghost use Rattle.new_files.specs.InMemory.{held_files, made_calls, failing_calls, file_faults};

    /// No files. `fails` lists the calls of `begin` and `take_name`, by their numbers from 0, that are to fail, and `writes`
    /// those of the first draft. It takes no memory.
    pub fn new(alloc: Global, fails: Vec<u64>, writes: Vec<u64>) -> Self
        ensures empty { held_files result ≡ (λ name. None) }
        ensures fails { failing_calls result ≡ fails.items }
        ensures calls { made_calls result ≡ 0 }
        ensures faults { file_faults result ≡ 0 }
    {
        MemNewFiles {
            alloc,
            site: MapSite::new(alloc, Vec::new(alloc)),
            fails,
            writes,
            calls: 0,
            faults: 0,
        }
    }

    /// The files as a site, whose reads do not fail.
    pub fn into_site(self) -> MapSite
        ensures { result ≡ self.site }
    {
        self.site
    }

    // Counts one more call. It fails where it is one of those that are to fail.
    fn turn(&mut self) -> Result<(), Failed>
        ensures files { held_files self.new ≡ held_files self.old }
        ensures planned { IsErr result ↔ Contains (failing_calls self.old) (made_calls self.old) }
        ensures calls { made_calls self.new ≡ one_more (made_calls self.old) }
        ensures fails { failing_calls self.new ≡ failing_calls self.old }
        ensures cause { HasCause (file_faults self.old) (file_faults self.new) result }
    {
        let planned = self.fails.contains(&self.calls);
        self.calls = self.calls.saturating_add(1);
        if planned {
            return Err(self.count_fault());
        }
        Ok(())
    }

    // Counts a fault.
    fn count_fault(&mut self) -> Failed
        ensures files { held_files self.new ≡ held_files self.old }
        ensures calls { made_calls self.new ≡ made_calls self.old }
        ensures fails { failing_calls self.new ≡ failing_calls self.old }
        ensures later { file_faults self.old ≤ file_faults self.new }
        ensures rose { Rose (file_faults self.old) (file_faults self.new) }
    {
        self.faults = self.faults.saturating_add(1);
        Failed
    }

    // These bytes stand under this name.
    fn put(&mut self, name: &str, bytes: &[u8]) -> Result<(), Failed>
        ensures done { OnOk result (held_files self.new ≡ put (held_files self.old) name.now bytes.now) }
        ensures failed { OnErr result (held_files self.new ≡ held_files self.old) }
        ensures calls { made_calls self.new ≡ made_calls self.old }
        ensures fails { failing_calls self.new ≡ failing_calls self.old }
        ensures cause { HasCause (file_faults self.old) (file_faults self.new) result }
    {
        let Ok(name) = Text::new(self.alloc, name.as_bytes()) else {
            return Err(self.count_fault());
        };
        let Ok(bytes) = Bytes::new(self.alloc, bytes) else {
            return Err(self.count_fault());
        };
        let Ok(()) = self.site.put(name, bytes) else {
            return Err(self.count_fault());
        };
        Ok(())
    }
}

impl NewFiles for MemNewFiles {
    type Draft = ListSink;

    ghost use Rattle.edge_io.specs.Causes.{HasCause, one_more};
    ghost use Rattle.edge_io.specs.Lists.{taken_bytes};
    ghost use Rattle.new_files.specs.Naming.{IsEmptyDraft, TakesName};
    ghost use Rattle.new_files.specs.InMemory.{held_files, made_calls, failing_calls, file_faults};

    ghost seen = { λ s. record { told = Some (held_files s); faults = s.faults } };

    /// Fails exactly where it is told to.
    fn begin(&mut self, name: &str) -> Result<ListSink, Failed>
        ensures empty { IfOk result (λ draft. IsEmptyDraft (Some (taken_bytes draft))) }
        ensures same { Some (held_files self.new) ≡ Some (held_files self.old) }
        ensures cause { HasCause (file_faults self.old) (file_faults self.new) result }
        ensures planned { IsErr result ↔ Contains (failing_calls self.old) (made_calls self.old) }
        ensures calls { made_calls self.new ≡ one_more (made_calls self.old) }
        ensures fails { failing_calls self.new ≡ failing_calls self.old }
    {
        self.turn()?;
        let writes = mem::replace(&mut self.writes, Vec::new(self.alloc));
        Ok(ListSink::new(self.alloc, writes))
    }

    /// Fails where it is told to, too.
    fn take_name(&mut self, name: &str, draft: ListSink) -> Result<(), Failed>
        ensures done { OnOk result (TakesName name.now (Some (taken_bytes draft)) (Some (held_files self.old)) (Some (held_files self.new))) }
        ensures failed { OnErr result (Some (held_files self.new) ≡ Some (held_files self.old)) }
        ensures cause { HasCause (file_faults self.old) (file_faults self.new) result }
        ensures planned { Contains (failing_calls self.old) (made_calls self.old) → IsErr result }
    {
        self.turn()?;
        self.put(name, draft.taken())
    }

    fn give_up(&mut self, _draft: ListSink)
        ensures same { Some (held_files self.new) ≡ Some (held_files self.old) }
        ensures faults { file_faults self.new ≡ file_faults self.old }
    {}
}
