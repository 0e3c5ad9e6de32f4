//! The files that are read whole, by pieces.

ghost use Rattle.std.specs.Prelude.{◌≡◌, ◌<◌, length, IfOk, IfErr};
ghost use Rattle.std.specs.Io.{ReadsAtMost};
ghost use Rattle.edge_io.specs.Causes.{HasCause};
ghost use Rattle.edge_io.specs.Steps.{Goes, Stays, Ticks, HasFile, FindsLength, ReadsPart};
ghost use Rattle.run_shelf.specs.declared.faults.ShelfCall.TheVariants.{Length, ReadAt};
ghost use Rattle.old_folder.specs.Olds.{old_name, IsNumbered};

use crate::names::run_name;
use arrayvec::ArrayString;
use edge_io::Shelf;
use run_shelf::ShelfCall;

/// A file of the original tool that is read whole.
#[derive(Clone, Copy, Debug, PartialEq, Eq)]
pub enum OldName {
    /// The run of this number.
    Run(u32),
    /// The tests that failed last.
    Failing,
}

// Its name. It takes no memory.
fn name_of(file: OldName) -> ArrayString<16>
    requires { IsNumbered file }
    ensures { result.bytes ≡ old_name file }
{
    match file {
        OldName::Run(number) => run_name(number),
        OldName::Failing => {
            let mut name = ArrayString::new();
            name.push_str("failing");
            name
        }
    }
}

/// How many bytes the file has; none exactly where it is not there. It takes no memory and makes one call of the folder, in
/// which nothing changes. The error is that call, where it failed.
pub fn old_length<H: Shelf>(shelf: &mut H, file: OldName) -> Result<Option<u64>, ShelfCall>
    requires few { IsNumbered file }
    ensures found { IfOk result (FindsLength (H.seen shelf.old).told (old_name file)) }
    ensures failed { IfErr result (λ call. call ≡ Length) }
    ensures same { Goes (H.seen shelf.old).told (H.seen shelf.new).told Stays }
    ensures time { Ticks (H.clock shelf.old) (H.clock shelf.new) }
    ensures cause { HasCause (H.seen shelf.old).faults (H.seen shelf.new).faults result }
{
    let name = name_of(file);
    let Ok(size) = shelf.length(name.as_str()) else {
        return Err(ShelfCall::Length);
    };
    Ok(size)
}

/// Moves bytes of the file, which there must be, into the front of `buf`, which must not be empty: from the byte number
/// `place` on as many as are there and fit. It answers how many. It takes no memory and makes one call of the folder, in
/// which nothing changes. The error is that call, where it failed.
pub fn read_old<H: Shelf>(
    shelf: &mut H,
    file: OldName,
    place: u64,
    buf: &mut [u8],
) -> Result<usize, ShelfCall>
    requires few { IsNumbered file }
    requires published { HasFile (H.seen shelf.old).told (old_name file) }
    requires room { 0 < length buf.old }
    ensures bound { ReadsAtMost result buf.new }
    ensures part { IfOk result (ReadsPart (H.seen shelf.old).told (old_name file) place buf.new) }
    ensures failed { IfErr result (λ call. call ≡ ReadAt) }
    ensures same { Goes (H.seen shelf.old).told (H.seen shelf.new).told Stays }
    ensures time { Ticks (H.clock shelf.old) (H.clock shelf.new) }
    ensures cause { HasCause (H.seen shelf.old).faults (H.seen shelf.new).faults result }
{
    let name = name_of(file);
    let Ok(count) = shelf.read_at(name.as_str(), place, buf) else {
        return Err(ShelfCall::ReadAt);
    };
    Ok(count)
}
