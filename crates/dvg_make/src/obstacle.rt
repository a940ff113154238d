//! Where the maker stops, and why.

ghost use Rattle.std.specs.Prelude.{◌≡◌, None};
ghost use Rattle.dvg_make.specs.Accounts.{Memory};
ghost use Rattle.dvg_make.specs.Private.Making.{obstacle_fault, blocked_fault};

use crate::account::EntryCause;
use crate::fault::{EntryFault, FrameCall, FramesFault};
use crate::partial::PartialEntry;
use crate::stack::Stack;
use dvg_cert::Key;
use dvg_items::Cursor;
use std::alloc::Global;

/// The item by which an entry can't be made.
#[derive(Clone, Copy)]
pub struct Obstacle {
    /// The item's place, and what is known there.
    pub cursor: Cursor,
    pub cause: EntryCause,
}

impl Obstacle {
    /// The refusal of the entry.
    pub fn fault(&self) -> EntryFault
        ensures { result ≡ obstacle_fault self.now }
    {
        self.cause.fault(self.cursor.at)
    }
}

/// Why the entry of a root, or of a call of a frame, can't be made.
#[derive(Drop)]
pub struct Blocked {
    /// The call. `None` if the entry is a root's, or if memory was out after all calls.
    pub call: Option<FrameCall>,
    /// The shapes in the making. The obstacle is an item of the last one.
    pub chain: Stack,
    pub obstacle: Obstacle,
}

impl Blocked {
    /// The refusal where memory was out after all calls.
    pub fn by_memory(alloc: Global) -> Blocked
        ensures call { result.call ≡ None }
        ensures cause { result.obstacle.cause ≡ Memory }
    {
        Blocked {
            call: None,
            chain: Stack::new(alloc),
            obstacle: PartialEntry::start(0, Key::Any).obstacle(EntryCause::Memory),
        }
    }

    /// The refusal of the certificate.
    pub fn fault(&self) -> FramesFault
        ensures { result ≡ blocked_fault self.now }
    {
        FramesFault {
            call: self.call,
            why: self.obstacle.fault(),
        }
    }
}
