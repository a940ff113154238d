//! Entries, and those of a certificate that are not among them.

ghost use Rattle.std.specs.Prelude.{Contains, IfOk};
ghost use Rattle.dvg_cert.specs.Entry.{IsClaim};
ghost use Rattle.dvg_cert.specs.declared.entry.Entry.{Entry as EntryValue};
ghost use Rattle.dvg_make.specs.Merged.{IsMerged};

use crate::made_entries::MadeEntries;
use dvg_cert::Entry;
use std::alloc::AllocError;

/// These entries, and those of a certificate that are not among them, in the order of a certificate.
pub fn merged(entries: MadeEntries, made: &[Entry]) -> Result<MadeEntries, AllocError>
    requires { (e : EntryValue) → Contains made.now e → IsClaim e }
    ensures { IfOk result (IsMerged entries made.now) }
{
    let mut merged = entries;
    for entry in made {
        if merged.find(entry.addr, entry.key).is_none() {
            merged.add(*entry)?;
        }
    }
    merged.sort()?;
    Ok(merged)
}
