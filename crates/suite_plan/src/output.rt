//! The output of a child, read to its end.

ghost use Rattle.std.specs.Prelude.{◌≡◌, ◌<◌, ◌≤◌, ◌++◌, ℕ, List, [], Bool, true, false, length, IfOk, IfErr, OnOk, IfSome};
ghost use Rattle.edge_io.specs.Children.{HasBroken};
ghost use Rattle.edge_io.specs.Steps.{Goes};
ghost use Rattle.suite_plan.specs.Outputs.{TakesOutputPiece, GivesBytes, IsEndless, IsAtEnd, IsTaken, HasStatus};
ghost use Rattle.suite_plan.specs.declared.output.OutputFault.TheVariants.{Child as child_fault, NoMemory as no_memory};
ghost use Rattle.edge_io.specs.declared.child.Finish.TheVariants.{ReadFault};

use edge_io::{Child, Failed, PIECE};
use std::alloc::Global;
use sub_number::NoMemory;

/// What takes an output piece by piece.
pub(crate) trait Taker {
    /// It has taken these bytes.
    ghost has: { Self → List ℕ → Type 0 };

    /// Memory may be wanting for what it takes.
    ghost lacks: { Bool };

    /// It has room for the next piece.
    ghost ready: { Self → Type 0 };

    /// Takes the next piece, of 65,536 bytes at most.
    fn take(&mut self, piece: &[u8]) -> Result<(), NoMemory>
        requires ready { ready self.old }
        requires piece { length piece.now ≤ 65536 }
        ensures ready { OnOk result (ready self.new) }
        ensures lack { IfErr result (λ _. lacks ≡ true) }
        ensures ok { (bytes : List ℕ) → has self.old bytes → OnOk result (has self.new (bytes ++ piece.now)) };
}

/// Why an output was not read to its end.
#[derive(Clone, Copy, Debug, PartialEq, Eq)]
pub(crate) enum OutputFault {
    /// A read of the child failed, or the wait for it.
    Child,
    /// There is not enough memory, or the output is longer than can be counted.
    NoMemory,
}

impl From<NoMemory> for OutputFault {
    ghost use Rattle.std.specs.Prelude.{◌≡◌};
    ghost use Rattle.suite_plan.specs.declared.output.OutputFault.TheVariants.{NoMemory};

    ghost from_gives = { λ _ fault. fault ≡ NoMemory };

    fn from(_: NoMemory) -> Self {
        OutputFault::NoMemory
    }
}

/// The room for a read.
pub(crate) fn read_buffer(alloc: Global) -> Result<Vec<u8>, NoMemory>
    ensures { IfOk result (λ buffer. length buffer.items ≡ 65536) }
{
    let mut buffer = Vec::new(alloc);
    buffer.resize(PIECE, 0)?;
    Ok(buffer)
}

/// Gives the output of the child to the taker, waits for the child, and gives its status. Where that is not read to its
/// end the child is stopped first.
pub(crate) fn read_to_end<C: Child, T: Taker>(
    child: &mut C,
    buffer: &mut [u8],
    taker: &mut T,
) -> Result<i32, OutputFault>
    requires ready { T.ready taker.old }
    requires has { T.has taker.old [] }
    requires room { length buffer.old ≡ 65536 }
    ensures ready { IfOk result (λ _. T.ready taker.new) }
    ensures took { IfOk result (λ _. (bytes : List ℕ) × T.has taker.new bytes) }
    ensures told { IfSome (C.seen child.old).told (HasStatus (T.has taker.new) result) }
    ensures endless { result ≡ Err no_memory → T.lacks ≡ false → IfSome (C.seen child.old).told IsEndless }
{
    match take_pieces(child, buffer, taker) {
        Ok(()) => match child.wait() {
            Ok(status) => Ok(status),
            Err(Failed) => Err(OutputFault::Child),
        },
        Err(fault) => {
            child.stop();
            let _status = child.wait();
            Err(fault)
        }
    }
}

// Gives the output of the child to the taker, up to its end.
fn take_pieces<C: Child, T: Taker>(
    child: &mut C,
    buffer: &mut [u8],
    taker: &mut T,
) -> Result<(), OutputFault>
    requires ready { T.ready taker.old }
    requires has { T.has taker.old [] }
    requires room { length buffer.old ≡ 65536 }
    ensures ready { OnOk result (T.ready taker.new) }
    ensures took { OnOk result ((bytes : List ℕ) × T.has taker.new bytes) }
    ensures whole { OnOk result (Goes (C.seen child.old).told (C.seen child.new).told (IsTaken (T.has taker.new))) }
    ensures broken { result ≡ Err child_fault → IfSome (C.seen child.old).told (λ output. output.finish ≡ ReadFault) }
    ensures endless { result ≡ Err no_memory → T.lacks ≡ false → IfSome (C.seen child.old).told IsEndless }
{
    for _ in 0..u64::MAX {
        if !take_piece(child, buffer, taker)? {
            return Ok(());
        }
    }
    // There is no room for an output of so many pieces.
    Err(OutputFault::NoMemory)
}

// Gives the next piece to the taker. False where the output has ended.
fn take_piece<C: Child, T: Taker>(
    child: &mut C,
    buffer: &mut [u8],
    taker: &mut T,
) -> Result<bool, OutputFault>
    requires ready { T.ready taker.old }
    requires room { length buffer.old ≡ 65536 }
    ensures ready { OnOk result (T.ready taker.new) }
    ensures room { length buffer.new ≡ length buffer.old }
    ensures more { result ≡ Ok true → TakesOutputPiece (T.has taker.old) (T.has taker.new) (C.seen child.old).told (C.seen child.new).told }
    ensures given { result ≡ Ok true → Goes (C.seen child.old).told (C.seen child.new).told (GivesBytes 1) }
    ensures lack { result ≡ Err no_memory → T.lacks ≡ true }
    ensures ended { result ≡ Ok false → Goes (C.seen child.old).told (C.seen child.new).told IsAtEnd }
    ensures same { result ≡ Ok false → taker.new ≡ taker.old }
    ensures broken { result ≡ Err child_fault → IfSome (C.seen child.old).told HasBroken }
{
    match child.read(buffer) {
        Ok(0) => Ok(false),
        Ok(count) => {
            taker.take(&buffer[..count])?;
            Ok(true)
        }
        Err(Failed) => Err(OutputFault::Child),
    }
}
