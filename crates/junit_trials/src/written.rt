//! Cases of rows.

use crate::rows::{Told, row};
use junit_xml::junit_case;
use std::alloc::Global;

/// Appends the case of the row.
pub(crate) fn put_case(alloc: Global, told: &Told, out: &mut Vec<u8>) -> Option<()> {
    let row = row(alloc, told)?;
    junit_case(&row, out).ok()
}

/// Whether the case of the row is this text.
pub(crate) fn is_case(alloc: Global, told: &Told, wanted: &[u8]) -> bool {
    let mut out = Vec::new(alloc);
    match put_case(alloc, told, &mut out) {
        Some(()) => out.as_slice() == wanted,
        None => false,
    }
}
