// A folder in memory, which keeps each moment that it has passed.
ghost use Rattle.std.specs.Prelude.{◌≡◌, ◌+◌, ◌≤◌, ℕ, Some, None, [], length, All, OnOk, OnErr, IfOk};
ghost use Rattle.edge_io.specs.Kept.{KnowsFirst};

use crate::fault_plan::FaultPlan;
use crate::names::names_of;
use crate::published_files::{
    File, Mark, copied_files, copy_part, file_count_at, keep_file, last_bytes_of, mark_at,
};
use crate::{Failed, NamesFault, Shelf};
use std::alloc::{AllocError, Global};
use std::mem;
use sub_number::{Bytes, NoMemory, Text};

/// A shelf that keeps what is published, and each moment that it has passed. It fails at the calls that it is told to,
/// and where memory runs out.
#[derive(Drop)]
pub struct MemShelf {
    alloc: Global,
    files: Vec<File>,
    current: Mark,
    past: Vec<Mark>,
    drafting: bool,
    draft: Vec<u8>,
    synced: usize,
    plan: FaultPlan,
    ghost settled_first: { current.settled ≤ current.published },
    ghost one_pending: { current.published ≤ current.settled + 1 },
    ghost all_published: { current.published ≡ length files.items },
    ghost past_within: { All (KnowsFirst (length files.items)) past.items },
    ghost since_a_call: { current.since ≤ plan.calls },
}

impl Shelf for MemShelf {
    ghost use Rattle.std.specs.Prelude.{◌<◌};
    ghost use Rattle.std.specs.Io.{ReadsAtMost};
    ghost use Rattle.edge_io.specs.Causes.{HasCause};
    ghost use Rattle.edge_io.specs.Steps.{Goes, Stays, Ticks, HasDraft, DraftFits, HasFile, CanPublishIfTold, FindsLength, ReadsPart, Opened, Dropped, Grown, GrownInPart, Synced, Placed, PlacedOrNot, Settled};
    ghost use Rattle.edge_io.specs.Names.{ListsNames, HasNamesCause};
    ghost use Rattle.edge_io.specs.Plans.{FailsAsListed, NamesAsListed};
    ghost use Rattle.edge_io.specs.MemState.{folder_of, folder_counts, shelf_course, shelf_calls, shelf_faults, Remembers};

    ghost seen = { λ s. record { told = Some (folder_of s); faults = s.plan.faults } };

    ghost clock = { λ s. s.plan.calls };

    ghost published_counts = { λ s. folder_counts s };

    /// Want of memory is no failure of the folder here, and raises no count.
    fn names(&mut self, alloc: Global) -> Result<Vec<Text>, NamesFault>
        ensures found { IfOk result (λ names. ListsNames (Some (folder_of self.old)) names.items) }
        ensures same { Goes (Some (folder_of self.old)) (Some (folder_of self.new)) Stays }
        ensures time { Ticks (shelf_calls self.old) (shelf_calls self.new) }
        ensures cause { HasNamesCause (shelf_faults self.old) (shelf_faults self.new) result }
        ensures listed { NamesAsListed (shelf_course self.old) (shelf_course self.new) result }
        ensures moments { Remembers self.old self.new }
    {
        self.plan.count_call()?;
        names_of(alloc, &self.files)
    }

    fn length(&mut self, name: &str) -> Result<Option<u64>, Failed>
        ensures found { IfOk result (FindsLength (Some (folder_of self.old)) name.now) }
        ensures same { Goes (Some (folder_of self.old)) (Some (folder_of self.new)) Stays }
        ensures time { Ticks (shelf_calls self.old) (shelf_calls self.new) }
        ensures cause { HasCause (shelf_faults self.old) (shelf_faults self.new) result }
        ensures listed { FailsAsListed (shelf_course self.old) (shelf_course self.new) result }
        ensures moments { Remembers self.old self.new }
    {
        self.plan.count_call()?;
        match last_bytes_of(&self.files, name) {
            Some(bytes) => Ok(Some(bytes.len() as u64)),
            None => Ok(None),
        }
    }

    fn read_at(&mut self, name: &str, place: u64, buf: &mut [u8]) -> Result<usize, Failed>
        requires published { HasFile (Some (folder_of self.old)) name.now }
        requires room { 0 < length buf.old }
        ensures bound { ReadsAtMost result buf.new }
        ensures part { IfOk result (ReadsPart (Some (folder_of self.old)) name.now place buf.new) }
        ensures same { Goes (Some (folder_of self.old)) (Some (folder_of self.new)) Stays }
        ensures time { Ticks (shelf_calls self.old) (shelf_calls self.new) }
        ensures cause { HasCause (shelf_faults self.old) (shelf_faults self.new) result }
        ensures listed { FailsAsListed (shelf_course self.old) (shelf_course self.new) result }
        ensures moments { Remembers self.old self.new }
    {
        self.plan.count_call()?;
        match last_bytes_of(&self.files, name) {
            Some(bytes) => Ok(copy_part(bytes, place, buf)),
            None => Ok(0),
        }
    }

    fn start_draft(&mut self) -> Result<(), Failed>
        ensures ok { OnOk result (Goes (Some (folder_of self.old)) (Some (folder_of self.new)) Opened) }
        ensures err { OnErr result (Goes (Some (folder_of self.old)) (Some (folder_of self.new)) Dropped) }
        ensures time { Ticks (shelf_calls self.old) (shelf_calls self.new) }
        ensures cause { HasCause (shelf_faults self.old) (shelf_faults self.new) result }
        ensures listed { FailsAsListed (shelf_course self.old) (shelf_course self.new) result }
        ensures moments { Remembers self.old self.new }
    {
        self.drafting = false;
        self.plan.count_call()?;
        self.drafting = true;
        self.draft = Vec::new(self.alloc);
        self.synced = 0;
        Ok(())
    }

    /// The whole piece, or where it fails nothing of it.
    fn append(&mut self, piece: &[u8]) -> Result<(), Failed>
        requires { HasDraft (Some (folder_of self.old)) }
        ensures ok { OnOk result (Goes (Some (folder_of self.old)) (Some (folder_of self.new)) (Grown piece.now)) }
        ensures small { OnOk result (DraftFits (Some (folder_of self.new))) }
        ensures err { OnErr result (Goes (Some (folder_of self.old)) (Some (folder_of self.new)) Stays) }
        ensures time { Ticks (shelf_calls self.old) (shelf_calls self.new) }
        ensures cause { HasCause (shelf_faults self.old) (shelf_faults self.new) result }
        ensures listed { FailsAsListed (shelf_course self.old) (shelf_course self.new) result }
        ensures moments { Remembers self.old self.new }
    {
        self.plan.count_call()?;
        if self.draft.extend_from_slice(piece).is_err() {
            return Err(self.plan.count_short());
        }
        Ok(())
    }

    fn sync_draft(&mut self) -> Result<(), Failed>
        requires { HasDraft (Some (folder_of self.old)) }
        ensures ok { OnOk result (Goes (Some (folder_of self.old)) (Some (folder_of self.new)) Synced) }
        ensures err { OnErr result (Goes (Some (folder_of self.old)) (Some (folder_of self.new)) Dropped) }
        ensures time { Ticks (shelf_calls self.old) (shelf_calls self.new) }
        ensures cause { HasCause (shelf_faults self.old) (shelf_faults self.new) result }
        ensures listed { FailsAsListed (shelf_course self.old) (shelf_course self.new) result }
        ensures moments { Remembers self.old self.new }
    {
        if let Err(failed) = self.plan.count_call() {
            self.drafting = false;
            return Err(failed);
        }
        self.synced = self.draft.len();
        Ok(())
    }

    /// Where it fails nothing is published.
    fn publish(&mut self, name: &str) -> Result<(), Failed>
        requires { CanPublishIfTold (Some (folder_of self.old)) }
        ensures ok { OnOk result (Goes (Some (folder_of self.old)) (Some (folder_of self.new)) (Placed name.now)) }
        ensures err { OnErr result (Goes (Some (folder_of self.old)) (Some (folder_of self.new)) Dropped) }
        ensures time { Ticks (shelf_calls self.old) (shelf_calls self.new) }
        ensures cause { HasCause (shelf_faults self.old) (shelf_faults self.new) result }
        ensures listed { FailsAsListed (shelf_course self.old) (shelf_course self.new) result }
        ensures moments { Remembers self.old self.new }
    {
        self.drafting = false;
        self.plan.count_call()?;
        let Ok(name) = String::from_str(self.alloc, name) else {
            return Err(self.plan.count_short());
        };
        let bytes = mem::replace(&mut self.draft, Vec::new(self.alloc));
        let settled = self.current.settled;
        let whole = self.synced == bytes.len();
        let Ok(()) = keep_file(
            &mut self.files,
            &mut self.past,
            self.current,
            File { name, bytes },
        ) else {
            return Err(self.plan.count_short());
        };
        self.current = Mark {
            settled,
            published: settled + 1,
            whole,
            since: self.plan.calls,
        };
        Ok(())
    }

    fn sync_folder(&mut self) -> Result<(), Failed>
        ensures ok { OnOk result (Goes (Some (folder_of self.old)) (Some (folder_of self.new)) Settled) }
        ensures err { OnErr result (Goes (Some (folder_of self.old)) (Some (folder_of self.new)) Stays) }
        ensures time { Ticks (shelf_calls self.old) (shelf_calls self.new) }
        ensures cause { HasCause (shelf_faults self.old) (shelf_faults self.new) result }
        ensures listed { FailsAsListed (shelf_course self.old) (shelf_course self.new) result }
        ensures moments { Remembers self.old self.new }
    {
        self.plan.count_call()?;
        let Ok(()) = self.past.push(self.current) else {
            return Err(self.plan.count_short());
        };
        let published = self.current.published;
        self.current = Mark {
            settled: published,
            published,
            whole: true,
            since: self.plan.calls,
        };
        Ok(())
    }
}

impl MemShelf {
    ghost use Rattle.edge_io.specs.Steps.{Stays};
    ghost use Rattle.edge_io.specs.MemState.{folder_of, shelf_course, shelf_calls, shelf_faults, begins_with, IsNew, IsRestOf, KeptForGood, Remembers};

    /// An empty shelf, with nothing pending. `fails` lists the calls of its trait, by their numbers from 0, that are to
    /// fail. It takes no memory.
    pub fn new(alloc: Global, fails: Vec<u64>) -> Self
        ensures empty { folder_of result ≡ begins_with (λ name. None) }
        ensures fresh { IsNew result fails.items }
    {
        MemShelf {
            alloc,
            files: Vec::new(alloc),
            current: Mark {
                settled: 0,
                published: 0,
                whole: true,
                since: 0,
            },
            past: Vec::new(alloc),
            drafting: false,
            draft: Vec::new(alloc),
            synced: 0,
            plan: FaultPlan::new(fails),
        }
    }

    /// How many calls failed for want of memory; they are a part of its faults. It stops at the last value of a `u64`.
    pub fn memory_faults(&self) -> u64
        ensures count { result ≡ (shelf_course self.now).short }
        ensures part { result ≤ shelf_faults self.now }
    {
        self.plan.short
    }

    /// Publishes a file for good, in place of any earlier one of that name. Nothing may be pending. The draft stays, and
    /// it is no call of those that are counted. Without the memory all is as before.
    pub fn put(&mut self, name: Text, bytes: Bytes) -> Result<(), NoMemory>
        requires { (folder_of self.old).disk.pending ≡ None }
        ensures ok { OnOk result (KeptForGood name bytes (folder_of self.old) (folder_of self.new)) }
        ensures err { OnErr result (Stays (folder_of self.old) (folder_of self.new)) }
        ensures counts { shelf_course self.new ≡ shelf_course self.old }
        ensures faults { shelf_faults self.new ≡ shelf_faults self.old }
        ensures moments { Remembers self.old self.new }
    {
        let file = File {
            name: name.into_string(),
            bytes: bytes.into_vec(),
        };
        let published = self.current.settled + 1;
        keep_file(&mut self.files, &mut self.past, self.current, file)?;
        self.current = Mark {
            settled: published,
            published,
            whole: true,
            since: self.plan.calls,
        };
        Ok(())
    }

    /// The shelf after a stop at a moment, that is after so many calls, without the name that was pending then or with
    /// it. A moment past the last call is now. It has nothing pending and no draft, and none of its calls is to fail.
    pub fn image(&self, moment: u64, choice: bool) -> Result<MemShelf, NoMemory>
        ensures rest { IfOk result (IsRestOf self.now moment choice) }
        ensures fresh { IfOk result (λ image. IsNew image []) }
    {
        let mark = mark_at(&self.past, self.current, moment);
        let count = file_count_at(mark, choice);
        let files = copied_files(self.alloc, &self.files[..count])?;
        Ok(MemShelf {
            alloc: self.alloc,
            files,
            current: Mark {
                settled: count,
                published: count,
                whole: true,
                since: 0,
            },
            past: Vec::new(self.alloc),
            drafting: false,
            draft: Vec::new(self.alloc),
            synced: 0,
            plan: FaultPlan::new(Vec::new(self.alloc)),
        })
    }
}
