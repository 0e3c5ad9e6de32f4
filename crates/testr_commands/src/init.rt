//! `testr init`.

ghost use Rattle.testr_commands.specs.Init.{Inits};

use crate::{Refusal, Verdict};
use command_steps::make_store;
use edge_io::Shelf;

/// Makes a repository. It takes no memory.
pub fn init<H: Shelf>(shelf: &mut H) -> Result<Verdict, Refusal<'static>>
    ensures { Inits (H.seen shelf.old) (H.seen shelf.new) result }
{
    make_store(shelf)?;
    Ok(Verdict::Passed)
}
