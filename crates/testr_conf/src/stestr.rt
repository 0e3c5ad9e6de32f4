//! What a `.stestr.conf` says.

ghost use Rattle.std.specs.Prelude.{◌≡◌, ◌≤◌, ◌⊎◌, length, IfOk, IfErr, Err};
ghost use Rattle.testr_conf.specs.Stestr.{stestr_of};

use crate::conf::unless_empty;
use crate::fault::ConfFault;
use crate::line_reader::read_lines;
use crate::name::Dialect;
use crate::value::says_yes;
use std::alloc::Global;
use sub_number::Text;

/// What a configuration of stestr says. A value that is not set is none.
#[derive(Drop)]
pub struct StestrValues {
    /// The path of the tests.
    pub test_path: Option<Text>,
    /// The path from which modules are named.
    pub top_dir: Option<Text>,
    /// The pattern by which tests are grouped.
    pub group_regex: Option<Text>,
    /// The tests of a class stay together.
    pub parallel_class: bool,
}

impl StestrValues {
    /// What a text of at most 16 MiB says, as a `.stestr.conf` (docs/FORMATS.md, "`.stestr.conf` and `pyproject.toml`").
    ///
    /// `BadLine`, `NoSection` and `Repeated` come with the number of the first line that is refused, exactly where it is
    /// refused so.
    pub fn read(alloc: Global, text: &[u8]) -> Result<Self, ConfFault>
        requires { length text.now ≤ 16777216 }
        ensures read { IfOk result (λ values. stestr_of text.now ≡ Ok values) }
        ensures refused { IfErr result (λ fault. (stestr_of text.now ≡ Err fault) ⊎ (fault ≡ ConfFault.NoMemory)) }
        ensures exactly { IfErr (stestr_of text.now) (λ fault. (result ≡ Err fault) ⊎ (result ≡ Err ConfFault.NoMemory)) }
    {
        let found = read_lines(alloc, Dialect::Stestr, text)?;
        Ok(StestrValues {
            test_path: unless_empty(found.test_path),
            top_dir: unless_empty(found.top_dir),
            group_regex: unless_empty(found.group_regex),
            parallel_class: says_yes(&unless_empty(found.parallel_class)),
        })
    }
}
