//! What is made so far.

ghost use Rattle.std.specs.Prelude.{◌≡◌, []};
ghost use Rattle.dvg_words.specs.Memory.{Rom};
ghost use Rattle.dvg_words.specs.Values.{IsMap};
ghost use Rattle.dvg_make.specs.Private.Making.{IsRightFor};

use crate::made_entries::MadeEntries;
use std::alloc::Global;

/// The entries that are made for a ROM so far, and the tails that are kept for the next ones.
#[derive(Drop)]
pub struct Making {
    pub alloc: Global,
    pub done: MadeEntries,
    pub tails: MadeEntries,
}

impl Making {
    /// No entry and no tail so far.
    pub fn new(alloc: Global) -> Making
        ensures none { result.done ≡ [] }
        ensures right { (rom : Rom) → IsMap rom.map → IsRightFor rom result }
    {
        Making {
            alloc,
            done: MadeEntries::new(alloc),
            tails: MadeEntries::new(alloc),
        }
    }
}
