// A child in memory.
ghost use Rattle.std.specs.Prelude.{◌≡◌, ◌≤◌, ◌<◌, IfOk, All, Some, drop, length, min};
ghost use Rattle.edge_io.specs.Children.{IsFinish};

use crate::{Child, Failed, Finish};
use sub_number::Bytes;

/// A child that gives its bytes in pieces and then ends as it is told to.
#[derive(Drop)]
pub struct PlanChild {
    bytes: Bytes,
    start: usize,
    piece: usize,
    finish: Finish,
    faults: u64,
    ghost has_piece: { 1 ≤ piece },
    ghost in_range: { start ≤ length bytes },
    ghost are_bytes: { All (λ byte. byte < 256) bytes },
    ghost has_finish: { IsFinish finish },
}

impl PlanChild {
    ghost use Rattle.edge_io.specs.Causes.{one_more};
    ghost use Rattle.edge_io.specs.Planned.{child_output, child_piece, child_faults};

    /// A child that gives these bytes, at most `piece` of them at once, at least one. It takes no memory.
    pub fn new(bytes: Bytes, piece: usize, finish: Finish) -> Self
        requires { 1 ≤ piece }
        ensures output { child_output result ≡ record { bytes = bytes; finish = finish } }
        ensures piece { child_piece result ≡ piece }
        ensures faults { child_faults result ≡ 0 }
    {
        PlanChild {
            bytes,
            start: 0,
            piece,
            finish,
            faults: 0,
        }
    }

    // Counts a fault.
    fn fail(&mut self) -> Failed
        ensures state { self.new ≡ record self.old { faults = one_more self.old.faults } }
        ensures later { self.old.faults ≤ self.new.faults }
    {
        self.faults = self.faults.saturating_add(1);
        Failed
    }
}

impl Child for PlanChild {
    ghost use Rattle.std.specs.Io.{ReadsAtMost};
    ghost use Rattle.std.proofs.lemmas.List.Elements.{All-drop};
    ghost use Rattle.edge_io.specs.Causes.{HasCause};
    ghost use Rattle.edge_io.specs.Children.{ReadsFront, ReadsToEnd};
    ghost use Rattle.edge_io.specs.Planned.{child_output, child_piece, child_faults};

    ghost seen = { λ s. record { told = Some (record { bytes = drop s.start s.bytes; finish = s.finish }); faults = s.faults } };

    /// Gives the most that a piece, what is left and `buf` allow.
    fn read(&mut self, buf: &mut [u8]) -> Result<usize, Failed>
        ensures bound { ReadsAtMost result buf.new }
        ensures bytes { ReadsFront (Some (child_output self.old)) (Some (child_output self.new)) result buf.new }
        ensures end { ReadsToEnd (Some (child_output self.old)) result buf.new }
        ensures cause { HasCause (child_faults self.old) (child_faults self.new) result }
        ensures count { IfOk result (λ n. n ≡ min (min (length (child_output self.old).bytes) (child_piece self.old)) (length buf.new)) }
        ensures piece { child_piece self.new ≡ child_piece self.old }
    {
        let bytes = self.bytes.bytes();
        let left = bytes.len() - self.start;
        let count = left.min(self.piece).min(buf.len());
        if count > 0 {
            buf[..count].copy_from_slice(&bytes[self.start..self.start + count]);
            self.start += count;
            return Ok(count);
        }
        if !buf.is_empty() && matches!(self.finish, Finish::ReadFault) {
            return Err(self.fail());
        }
        Ok(0)
    }

    /// A child whose reads fail answers as one that a signal ended.
    fn wait(&mut self) -> Result<i32, Failed> {
        match self.finish {
            Finish::Exit(status) => Ok(status),
            Finish::ReadFault => Ok(-9),
            Finish::WaitFault => Err(self.fail()),
        }
    }

    /// It gives no more bytes.
    fn stop(&mut self) {
        self.start = self.bytes.bytes().len();
    }

    ghost are_bytes = { λ s. All-drop (λ byte. byte < 256) s.start s.bytes s.are_bytes };

    ghost has_finish = { λ s. s.has_finish };
}
