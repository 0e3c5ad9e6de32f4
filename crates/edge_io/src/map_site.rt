// Files in memory by name.
ghost use Rattle.std.specs.Prelude.{◌≡◌, ◌↔◌, [], Some, None, IsErr, Contains, OnOk, OnErr};

use crate::fault_plan::FaultPlan;
use crate::published_files::{File, copy_part, last_bytes_of};
use crate::{Failed, Found, Site};
use std::alloc::Global;
use sub_number::{Bytes, NoMemory, Text};

/// Files in memory by name. It fails exactly at the calls that it is told to.
#[derive(Drop)]
pub struct MapSite {
    folder: String,
    files: Vec<File>,
    plan: FaultPlan,
}

impl MapSite {
    ghost use Rattle.edge_io.specs.Disk.{put};
    ghost use Rattle.edge_io.specs.Planned.{site_folder, site_files, site_course, site_faults};

    /// No files, and a folder whose path is not known. `fails` lists the reads, by their numbers from 0, that are to fail. It takes no memory.
    pub fn new(alloc: Global, fails: Vec<u64>) -> Self
        ensures nowhere { site_folder result ≡ [] }
        ensures empty { site_files result ≡ (λ name. None) }
        ensures fails { (site_course result).fails ≡ fails.items }
        ensures calls { (site_course result).calls ≡ 0 }
        ensures faults { site_faults result ≡ 0 }
    {
        MapSite {
            folder: String::new(alloc),
            files: Vec::new(alloc),
            plan: FaultPlan::new(fails),
        }
    }

    /// Says which folder the files stand in, by its absolute path. It is no call of those that are counted.
    pub fn place_in(&mut self, folder: Text)
        ensures path { site_folder self.new ≡ folder }
        ensures files { site_files self.new ≡ site_files self.old }
        ensures course { site_course self.new ≡ site_course self.old }
        ensures faults { site_faults self.new ≡ site_faults self.old }
    {
        self.folder = folder.into_string();
    }

    /// A file more, in place of any other of that name. It is no call of those that are counted.
    pub fn put(&mut self, name: Text, bytes: Bytes) -> Result<(), NoMemory>
        ensures path { site_folder self.new ≡ site_folder self.old }
        ensures ok { OnOk result (site_files self.new ≡ put (site_files self.old) name bytes) }
        ensures err { OnErr result (site_files self.new ≡ site_files self.old) }
        ensures course { site_course self.new ≡ site_course self.old }
        ensures faults { site_faults self.new ≡ site_faults self.old }
    {
        let file = File {
            name: name.into_string(),
            bytes: bytes.into_vec(),
        };
        self.files.push(file)?;
        Ok(())
    }
}

impl Site for MapSite {
    ghost use Rattle.edge_io.specs.Causes.{HasCause, one_more};
    ghost use Rattle.edge_io.specs.Kept.{lookup};
    ghost use Rattle.edge_io.specs.Sites.{FindsFile, FindsAtMost};
    ghost use Rattle.edge_io.specs.Planned.{site_folder, site_files, site_course, site_faults};

    ghost seen = { λ s. record { told = Some (lookup s.files.items); faults = s.plan.faults } };

    ghost folder = { λ s. s.folder.bytes.items };

    fn folder(&self) -> &str
        ensures path { result.now ≡ site_folder self.now }
    {
        self.folder.as_str()
    }

    /// As many bytes as are there and fit.
    fn read_at(&mut self, name: &str, place: u64, buf: &mut [u8]) -> Result<Found, Failed>
        ensures bound { FindsAtMost result buf.new }
        ensures found { FindsFile (Some (site_files self.old)) name.now place buf.new result }
        ensures same { Some (site_files self.new) ≡ Some (site_files self.old) }
        ensures stays { site_folder self.new ≡ site_folder self.old }
        ensures cause { HasCause (site_faults self.old) (site_faults self.new) result }

        // It fails exactly at the calls that it is told to.
        ensures planned { IsErr result ↔ Contains (site_course self.old).fails (site_course self.old).calls }
        ensures calls { (site_course self.new).calls ≡ one_more (site_course self.old).calls }
        ensures fails { (site_course self.new).fails ≡ (site_course self.old).fails }
    {
        self.plan.count_call()?;
        match last_bytes_of(&self.files, name) {
            Some(bytes) => Ok(Found::Read(copy_part(bytes, place, buf))),
            None => Ok(Found::Absent),
        }
    }
}
