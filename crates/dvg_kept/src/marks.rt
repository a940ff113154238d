//! Which of the kept shapes a frame calls, with all that these call.

ghost use Rattle.std.specs.Prelude.{◌≡◌, ◌<◌, [], length, OnOk, IfOk, IfSome, IfNone};
ghost use Rattle.dvg_cert.specs.Entry.{IsKey};
ghost use Rattle.dvg_items.specs.Bounds.{IsSomeCertificate};
ghost use Rattle.dvg_kept.specs.Private.Marks.{AllAskedMarked, Asks, IsCounted, IsCalledAt, IsNothing, Marks, MarksMore, MarksOne, Takes, context_of, picked};

use crate::leaves::Leaves;
use dvg_cert::{Entry, Key};
use dvg_items::{Item, Kind, scale_past, target};
use dvg_make::MadeEntries;
use dvg_words::{Cell, Fetch, read_cell};
use std::alloc::{AllocError, Global};
use std::marker::Model;

/// At an item of a shape or of a frame, with the known scale there.
#[derive(Clone, Copy)]
pub struct Place {
    pub kind: Kind,
    pub at: u16,
    pub scale: Key,
}

/// Which entries are marked, by their positions, and whose calls were not looked at yet.
#[derive(Drop)]
pub struct MarkedEntries {
    marked: Vec<bool>,
    waiting: Vec<usize>,
    count: usize,
}

impl Model for MarkedEntries {
    ghost use Rattle.dvg_kept.specs.Private.Marks.{IsCounted, Marks};

    ghost Value = { Marks };

    ghost view = { λ marks. record { marked = marks.marked.items; waiting = marks.waiting.items; count = marks.count } };

    ghost invariant = { λ marks. IsCounted (record { marked = marks.marked.items; waiting = marks.waiting.items; count = marks.count }) };
}

impl MarkedEntries {
    /// None of so many is marked.
    pub fn none(alloc: Global, len: usize) -> Result<MarkedEntries, AllocError>
        ensures { IfOk result (IsNothing len) }
    {
        let marked = vec![in alloc; false; len]?;
        let waiting = Vec::with_capacity(alloc, len)?;
        Ok(MarkedEntries {
            marked,
            waiting,
            count: 0,
        })
    }

    /// Marks the entry at a position. It doesn't wait: whoever marks it so knows that its shape calls nothing.
    fn mark(&mut self, position: usize)
        requires { position < length self.old.marked }
        ensures { MarksOne (Unit {0}) position self.old self.new }
    {
        if !self.marked[position] {
            self.marked[position] = true;
            self.count += 1;
        }
    }

    /// Marks the entry at a position, if it isn't marked, and has it wait.
    fn mark_waiting(&mut self, position: usize) -> Result<(), AllocError>
        requires { position < length self.old.marked }
        ensures { OnOk result (MarksOne ⊥ position self.old self.new) }
    {
        if !self.marked[position] {
            self.waiting.push(position)?;
            self.marked[position] = true;
            self.count += 1;
        }
        Ok(())
    }

    /// Marks the entry that is called at a target, at just this scale, and answers it; nothing without a target. If its shape is known to
    /// call nothing, it doesn't wait. `None` if there is no such entry, or no memory.
    fn mark_target(
        &mut self,
        entries: &MadeEntries,
        leaves: &Leaves,
        target: Option<u16>,
        scale: Key,
    ) -> Option<Option<Entry>>
        requires { length self.old.marked ≡ length entries.now }
        ensures { IfSome result (IsCalledAt entries.now leaves.now target scale self.old self.new) }
    {
        let Some(to) = target else {
            return Some(None);
        };
        let (position, entry) = entries.find_full(to, scale)?;
        if self.marked[position] {
            return Some(Some(entry));
        }
        if leaves.has(to) {
            self.mark(position);
            return Some(Some(entry));
        }
        self.mark_waiting(position).ok()?;
        Some(Some(entry))
    }

    /// Marks all entries that items call, from a place on; those of `leaves` don't wait. `None` if one isn't kept, or there is no memory,
    /// or the items come to a word at which nothing stands.
    pub fn mark_calls<F: Fetch>(
        &mut self,
        entries: &MadeEntries,
        leaves: &Leaves,
        words: &F,
        first: Place,
    ) -> Option<()>
        requires entries { IsSomeCertificate entries.now }
        requires len { length self.old.marked ≡ length entries.now }
        requires key { IsKey first.scale }
        ensures asked { IfSome result (λ _. AllAskedMarked (F.words words.now) entries.now first self.new) }
        ensures more { IfSome result (λ _. MarksMore entries.now leaves.now (Asks (context_of (F.words words.now) entries.now first)
            (F.words words.now) first.at) self.old self.new) }
    {
        let mut here = first;
        while let Cell::Holds { format, instr } = read_cell(words, here.at) {
            let item = Item {
                at: here.at,
                format,
                instr,
            };
            let to = target(here.kind, &instr);
            let called = self.mark_target(entries, leaves, to, here.scale)?;
            match item.next_address(here.kind) {
                Some(at) => here = Place {
                    kind: here.kind,
                    at,
                    scale: scale_past(&instr, here.scale, &called),
                },
                None => return Some(()),
            }
        }
        None
    }

    /// The next one of those that wait, which waits no longer.
    pub fn take(&mut self) -> Option<usize>
        ensures some { IfSome result (λ position. Takes position self.old self.new) }
        ensures none { IfNone result (self.new ≡ self.old) }
        ensures empty { IfNone result (self.old.waiting ≡ []) }
    {
        self.waiting.pop()
    }

    /// The marked ones of these entries, in their order.
    pub fn marked(&self, alloc: Global, entries: &MadeEntries) -> Result<Vec<Entry>, AllocError>
        ensures { IfOk result (λ marked. marked.items ≡ picked self.now.marked entries.now) }
    {
        let mut marked = Vec::new(alloc);
        for (position, &is_marked) in self.marked.iter().enumerate() {
            if is_marked {
                if let Some(entry) = entries.get(position) {
                    marked.push(entry)?;
                }
            }
        }
        Ok(marked)
    }

    /// How many are marked.
    pub fn count(&self) -> usize
        ensures value { result ≡ self.now.count }
        ensures counted { IsCounted self.now }
    {
        self.count
    }
}
