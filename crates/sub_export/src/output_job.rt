//! Events from words.

ghost use Rattle.std.specs.Prelude.{◌≡◌, ◌≤◌, length, Some, IsTrue, IfOk, is_some, option_map};
ghost use Rattle.command_words.specs.Items.{texts};
ghost use Rattle.packet_codec.specs.Canonical.{Fits};
ghost use Rattle.sub_export.specs.Output as spec;

use crate::job::{Job, job_of, last_event, piece_of};
use packet_codec::Event;
use std::alloc::Global;
use std::marker::Model;
use sub_number::{NoMemory, Text};

/// The events that words ask for. Contracts see it as what it tells of a test.
#[derive(Drop)]
pub struct OutputJob {
    alloc: Global,
    job: Job,
}

impl Model for OutputJob {
    ghost use Rattle.std.specs.Prelude.{IsTrue};
    ghost use Rattle.sub_export.specs.declared.job.Job.{Job as AJob};
    ghost use Rattle.sub_export.specs.contracts.job.Job.{the_row as job_row};
    ghost use Rattle.sub_export.specs.Output.{job_fits};

    ghost Value = { AJob };

    ghost coded = { job_row.coded };

    ghost view = { λ o. o.job };

    ghost invariant = { λ o. IsTrue (job_fits o.job) };
}

impl OutputJob {
    /// The job that the words behind the filter's name ask for. None comes exactly where they are no command.
    pub fn read(alloc: Global, words: &[String]) -> Result<Option<Self>, NoMemory>
        ensures { IfOk result (λ job. job ≡ spec.job_of (texts words.now)) }
    {
        match job_of(alloc, words)? {
            Some(job) => Ok(Some(OutputJob { alloc, job })),
            None => Ok(None),
        }
    }

    /// Whether a file is attached.
    pub fn attaches(&self) -> bool
        ensures { result ≡ is_some self.now.attachment }
    {
        self.job.attachment.is_some()
    }

    /// The path of the file that is attached. None comes exactly where none is, or where it is standard input.
    pub fn path(&self) -> Option<&Text>
        ensures { option_map (λ path. path.now) result ≡ spec.attached_path self.now }
    {
        match &self.job.attachment {
            Some(attachment) => attachment.path.as_ref(),
            None => None,
        }
    }

    /// The event of a piece of the file.
    pub fn piece(&self, bytes: &[u8]) -> Result<Event, NoMemory>
        requires attaches { IsTrue (is_some self.now.attachment) }
        requires short { length bytes.now ≤ spec.piece_size }
        ensures event { IfOk result (λ event. Some event ≡ spec.attached_piece_event self.now bytes.now) }
        ensures fits { IfOk result Fits }
    {
        match &self.job.attachment {
            Some(attachment) => piece_of(
                self.alloc,
                self.job.stamp,
                &self.job.id,
                attachment,
                bytes,
            ),
            None => unreachable!(),
        }
    }

    /// The last event.
    pub fn last(&self) -> Result<Event, NoMemory>
        ensures event { IfOk result (λ event. event ≡ spec.last_event self.now) }
        ensures fits { IfOk result Fits }
    {
        last_event(self.alloc, &self.job)
    }
}
