//! The real outside: the folder, files, processes and streams of the system, as the objects that `edge_io` speaks of.
//!
//! These rooms know files and processes of the system, and nothing of packets or runs. Each object counts its faults, and
//! keeps why the last of them came.
//!
//! - `folder_shelf`, `folder`, `published_files`: the folder of runs, its draft, and the files that are published in it
//! - `lock`, `identity`: who may use the folder beside others, and whether a name still leads to the file that was opened
//! - `real_new_files`: files that take their names at the end
//! - `real_spawner`, `real_child`, `written_ids`: worker processes, and the files of ids that they are told
//! - `programs`: those that run beside each other, where whoever meets a fault can stop them all
//! - `real_site`, `working_folder`: files of the project by name, and the folder that names begin at
//! - `stream_source`, `stream_sink`, `descriptors`: standard input and outputs, also where they are closed
//! - `cause`, `fault_count`: why a call of the system failed, and the count of such faults
//!
//! Its tests stand in a room of their own above it, `outside_trials`.
#![tactic(auto)]

mod cause;
mod descriptors;
mod fault_count;
mod folder;
mod folder_shelf;
mod identity;
mod lock;
mod programs;
mod published_files;
mod real_child;
mod real_new_files;
mod real_site;
mod real_spawner;
mod stream_sink;
mod stream_source;
mod working_folder;
mod written_ids;

pub use cause::Cause;
pub use descriptors::{Held, hold_closed};
pub use folder_shelf::FolderShelf;
pub use lock::Sharing;
pub use programs::Programs;
pub use real_child::RealChild;
pub use real_new_files::RealNewFiles;
pub use real_site::RealSite;
pub use real_spawner::{Errors, RealSpawner};
pub use stream_sink::{Outlet, StreamSink};
pub use stream_source::StreamSource;
pub use working_folder::enter_folder;
