//! Calls and tail jumps, with the entries that they name.

use dvg_cert::Entry;

/// A call or tail jump: the word address of its item, and the entry that it names.
#[derive(Clone, Copy, Debug, PartialEq, Eq)]
pub struct Call {
    pub at: u16,
    pub entry: Entry,
}
