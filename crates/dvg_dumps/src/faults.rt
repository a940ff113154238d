//! The single faults that make one dump of another.

ghost use Rattle.std.specs.Prelude.{◌≡◌, ◌≤◌, length, IfOk};
ghost use Rattle.std.specs.List.{filter};
ghost use Rattle.dvg_dumps.specs.Faults.{explains};
ghost use Rattle.dvg_dumps.specs.Told.{told};
ghost use Rattle.dvg_dumps.specs.declared.measuring.TheConstants.{MOST_BYTES};

use crate::fault::{DumpFault, explains};
use crate::tried::candidates;
use std::alloc::{AllocError, Global};

/// Those of these faults that make each byte of the other dump, as far as both go, of the good one: by [`explains`].
fn explaining(
    alloc: Global,
    faults: &[DumpFault],
    good: &[u8],
    other: &[u8],
) -> Result<Vec<DumpFault>, AllocError>
    requires { length good.now ≤ MOST_BYTES }
    ensures { IfOk result (λ found. found.items ≡ filter (λ f. explains f good.now other.now) faults.now) }
{
    let mut found = Vec::new(alloc);
    for fault in faults {
        if explains(*fault, good, other) {
            found.push(*fault)?;
        }
    }
    Ok(found)
}

/// All single faults, of those that are tried, that make each byte of the other dump, as far as both go, of the good one: by [`explains`].
/// Where no byte differs, there are none.
pub fn faults_of(alloc: Global, good: &[u8], other: &[u8]) -> Result<Vec<DumpFault>, AllocError>
    requires { length good.now ≤ MOST_BYTES }
    ensures { IfOk result (λ found. found.items ≡ told good.now other.now) }
{
    let tried = candidates(alloc, good.len())?;
    explaining(alloc, &tried, good, other)
}
