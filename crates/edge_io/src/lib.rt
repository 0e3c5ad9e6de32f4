//! What the outside is: sources and sinks of bytes, a folder that keeps files over a stop, and forms of them in memory.
//!
//! Each trait counts its faults, and a call answers `Failed` only where that count rose. What an object holds or has
//! left is told only by implementations that know it, and clauses on content hold where it is told.
//!
//! For want of memory a public call answers `NoMemory`, which comes for nothing else; what it was lent is then as
//! before, where it does not say otherwise.
//!
//! - `failed`: the answer of a call that failed.
//! - `source`, `sink`: where bytes come from and go, and the writing of a whole piece.
//! - `shelf`: a folder, its drafts, and what a stop at each moment may leave of it.
//! - `child`, `spawner`, `job`: processes, what starts them, and what with.
//! - `site`: files by name.
//! - `whole_file`: a file that is read whole, unless it is too long.
//! - `limits`: how much is read of an input.
//! - `list_source`, `list_sink`, `mem_shelf`, `map_site`, `plan_child`, `plan_spawner`: the forms in memory, which fail at
//!   the calls that they are told to.
//! - `names`: the list of a folder's names.
//! - `fault_plan`, `published_files`: which calls of these fail, and the files and moments that a shelf in memory keeps.
//! - `laws`: the last moment of such a shelf is now.
#![tactic(auto)]

mod child;
mod failed;
mod fault_plan;
mod job;
mod laws;
mod limits;
mod list_sink;
mod list_source;
mod map_site;
mod mem_shelf;
mod names;
mod plan_child;
mod plan_spawner;
mod published_files;
mod shelf;
mod sink;
mod site;
mod source;
mod spawner;
mod whole_file;

pub use child::{Child, Finish};
pub use failed::Failed;
pub use job::{IdFile, Job};
pub use laws::the_last_moment_is_now;
pub use limits::{MOST_BYTES, PIECE};
pub use list_sink::ListSink;
pub use list_source::ListSource;
pub use map_site::MapSite;
pub use mem_shelf::MemShelf;
pub use names::NamesFault;
pub use plan_child::PlanChild;
pub use plan_spawner::{Plan, PlanSpawner};
pub use shelf::Shelf;
pub use sink::{Sink, write_whole};
pub use site::{Found, Site};
pub use source::Source;
pub use spawner::Spawner;
pub use whole_file::{ReadFault, read_file};
