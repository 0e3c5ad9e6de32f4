//! Why nothing is said of the runs.

ghost use Rattle.std.specs.Prelude.{◌≡◌, None, IsSomeAnd, IfErr, OnOk};
ghost use Rattle.run_shelf.specs.Stores.{store_fault};
ghost use Rattle.run_shelf.specs.declared.faults.StoreFault.TheVariants.{Closed};
ghost use Rattle.run_ledger.specs.declared.fault.LedgerFault.TheVariants.{Store as StoreRefused};

use edge_io::Shelf;
use run_shelf::{CacheFileFault, Store, StoreFault};
use sub_number::NoMemory;
use thiserror::Error;

/// Why nothing is said of the runs, which are as before.
#[derive(Clone, Copy, Debug, PartialEq, Eq, Error)]
pub enum LedgerFault {
    /// A call of the folder failed, or had failed before.
    #[error("{0}")]
    Store(StoreFault),
    /// There is not enough memory.
    #[error("out of memory")]
    NoMemory,
}

impl From<StoreFault> for LedgerFault {
    ghost use Rattle.std.specs.Prelude.{◌≡◌};
    ghost use Rattle.run_ledger.specs.declared.fault.LedgerFault.TheVariants.{Store};

    ghost from_gives = { λ cause fault. fault ≡ Store cause };

    fn from(cause: StoreFault) -> Self {
        LedgerFault::Store(cause)
    }
}

impl From<CacheFileFault> for LedgerFault {
    ghost use Rattle.std.specs.Prelude.{◌≡◌};
    ghost use Rattle.run_ledger.specs.Cached.{ledger_fault};

    ghost from_gives = { λ cause fault. fault ≡ ledger_fault cause };

    fn from(cause: CacheFileFault) -> Self {
        match cause {
            CacheFileFault::Store(fault) => LedgerFault::Store(fault),
            CacheFileFault::NoMemory => LedgerFault::NoMemory,
        }
    }
}

impl From<NoMemory> for LedgerFault {
    ghost use Rattle.std.specs.Prelude.{◌≡◌};
    ghost use Rattle.run_ledger.specs.declared.fault.LedgerFault.TheVariants.{NoMemory as WantOfMemory};

    ghost from_gives = { λ _ fault. fault ≡ WantOfMemory };

    fn from(_: NoMemory) -> Self {
        LedgerFault::NoMemory
    }
}

/// Refuses a store that is closed, with the call that failed.
///
/// `Store` comes exactly where a call of the folder had failed before. Nothing is done.
pub fn check_open<H: Shelf>(store: &Store<'_, H>) -> Result<(), LedgerFault>
    ensures open { OnOk result (store_fault store.now ≡ None) }
    ensures closed { IfErr result (λ fault. IsSomeAnd (store_fault store.now) (λ call. fault ≡ StoreRefused (Closed call))) }
{
    match store.fault() {
        None => Ok(()),
        Some(call) => Err(LedgerFault::Store(StoreFault::Closed(call))),
    }
}
