//! The ids of a probe.

ghost use Rattle.std.specs.Prelude.{◌≡◌, length, IfOk};
ghost use Rattle.isolation_bisect.specs.Probes.{candidates_run, probe_ids, IsWithin};

use crate::probe::Probe;
use std::alloc::Global;
use sub_number::{IdList, NoMemory, Text};

// The candidates that the probe runs before the test.
fn candidates_run<'a>(candidates: &'a IdList, probe: &Probe) -> &'a [Text]
    requires { IsWithin (length candidates.now) probe.now }
    ensures { result.now ≡ candidates_run candidates.now probe.now }
{
    match *probe {
        Probe::Alone => &[],
        Probe::Span { from, to } => &candidates.list()[from as usize..to as usize],
    }
}

/// The ids of the probe in the order in which they are to run, the test last. A span lies within the candidates, and is
/// not empty.
pub fn probe_ids(
    alloc: Global,
    candidates: &IdList,
    probe: &Probe,
    test: &Text,
) -> Result<IdList, NoMemory>
    requires { IsWithin (length candidates.now) probe.now }
    ensures { IfOk result (λ ids. ids ≡ probe_ids candidates.now probe.now test.now) }
{
    let mut ids = IdList::new(alloc);
    for id in candidates_run(candidates, probe) {
        ids.push(id.copy()?)?;
    }
    ids.push(test.copy()?)?;
    Ok(ids)
}
