//! Frames over kept shapes.

ghost use Rattle.std.specs.Prelude.{◌≡◌, ◌≤◌, [], Ok, IfOk, IfErr, IfSome, OnErr};
ghost use Rattle.dvg_cert.specs.declared.limits.TheConstants.{MOST_WORDS};
ghost use Rattle.dvg_check.specs.Means.{Means};
ghost use Rattle.dvg_check.specs.Rules.{GoodFrame};
ghost use Rattle.dvg_check.specs.declared.fault.Mode.TheVariants.{Exact};
ghost use Rattle.dvg_make.specs.Judging.{AreLeast, FrameRefused, HasCallCause, VerdictByMade};
ghost use Rattle.dvg_make.specs.Private.Judged.{IsJudged};
ghost use Rattle.dvg_clocks.specs.Kept.{AreTold};
ghost use Rattle.dvg_kept.specs.Kept.{IsKept};
ghost use Rattle.dvg_kept.specs.declared.kept.Keeping.TheVariants.{Full};
ghost use Rattle.dvg_kept.specs.Private.Own.{HasOwn};

use crate::leaves::Leaves;
use crate::own::own_marks;
use dvg_cert::{Entry, MOST_ENTRIES};
use dvg_check::{Accepted, JudgedShapes, Mode, Yes};
use dvg_clocks::{ShapeClocks, States};
use dvg_make::{FrameRefusal, MadeEntries, explain_judging, merged, own_verdict};
use dvg_words::{FrameImage, RomImage, Window};
use std::alloc::{AllocError, Global};
use std::marker::Model;
use std::mem;

/// The entries that were made for frames over a ROM, whose shapes light in a window.
#[derive(Drop)]
pub struct KeptShapes<'a> {
    rom: RomImage<'a>,
    window: Window,
    entries: MadeEntries,
    /// Whose calls need not be looked for.
    leaves: Leaves,
}

impl<'a> Model for KeptShapes<'a> {
    ghost use Rattle.dvg_kept.specs.Kept.{Kept, IsKept};
    ghost use Rattle.dvg_kept.specs.Private.Leaves.{AreLeaves};

    ghost Value = { Kept };

    ghost view = { λ kept. record { rom = kept.rom; window = kept.window; list = kept.entries } };

    ghost invariant = { λ kept. IsKept (record { rom = kept.rom; window = kept.window; list = kept.entries })
        × AreLeaves kept.rom kept.leaves };
}

/// The words and the depth of a frame that is accepted over these entries; `None` if it isn't.
fn accepted_over(
    rom: &RomImage,
    entries: &MadeEntries,
    frame: &FrameImage,
    budget: u32,
    window: Window,
) -> Option<Accepted>
    requires budget { budget ≤ MOST_WORDS }
    requires kept { IsKept (record { rom = rom.now; window = window; list = entries.now }) }
    ensures good { IfSome result (λ yes. GoodFrame window rom.now.machine frame.now entries.now budget yes.words yes.depth) }
    ensures means { IfSome result (λ yes. Means Exact (record { frame = frame.now; rom = rom.now }) window yes.words yes.depth) }
{
    let shapes = JudgedShapes::unchecked(rom, entries, window, Mode::Exact);
    match shapes.judge_frame(frame, budget) {
        Ok(accepted) => Some(accepted),
        Err(_) => None,
    }
}

/// What came of keeping entries.
#[derive(Clone, Copy, PartialEq, Eq)]
pub enum Keeping {
    /// Other entries are kept than before.
    Changed,
    /// They were too many: the same are kept.
    Full,
}

impl<'a> KeptShapes<'a> {
    /// Nothing so far. Takes memory for which shapes call nothing; an `Err` says that there was none.
    pub fn new(
        alloc: Global,
        rom: RomImage<'a>,
        window: Window,
    ) -> Result<KeptShapes<'a>, AllocError>
        ensures { IfOk result (λ kept. kept ≡ record { rom = rom.entry; window = window; list = [] }) }
    {
        rom.prove_whole();
        Ok(KeptShapes {
            rom,
            window,
            entries: MadeEntries::new(alloc),
            leaves: Leaves::none(alloc)?,
        })
    }

    /// How many entries the certificate has that is made for a frame, if all of them are kept.
    fn own_entries(&self, alloc: Global, frame: &FrameImage) -> Option<usize>
        ensures { IfSome result (HasOwn self.now frame.now) }
    {
        let marks = own_marks(alloc, &self.rom, &self.entries, &self.leaves, frame)?;
        Some(marks.count())
    }

    /// The verdict on a frame that is accepted over the kept entries; `None` if it isn't, or one of its entries isn't kept.
    pub(crate) fn kept_verdict(&self, alloc: Global, frame: &FrameImage, budget: u32) -> Option<Yes>
        requires { budget ≤ MOST_WORDS }
        ensures judged { IfSome result (λ yes. IsJudged self.now.rom frame.now self.now.window budget (Ok yes)) }
        ensures own { IfSome result (λ yes. HasOwn self.now frame.now yes.shapes) }
        ensures good { IfSome result (λ yes. GoodFrame self.now.window self.now.rom.machine frame.now self.now.list budget
            yes.words yes.depth) }
        ensures kept { IfSome result (λ _. IsKept self.now) }
    {
        let own = self.own_entries(alloc, frame)?;
        let accepted = accepted_over(&self.rom, &self.entries, frame, budget, self.window)?;
        Some(Yes {
            shapes: own as u32,
            words: accepted.words,
            depth: accepted.depth,
        })
    }

    /// Keeps the entries of a certificate that was made for a frame, if they are not too many; without memory for them nothing is kept.
    pub(crate) fn keep(&mut self, alloc: Global, made: &[Entry]) -> Keeping
        requires { IsKept (record { rom = self.old.rom; window = self.old.window; list = made.now }) }
        ensures rom { self.new.rom ≡ self.old.rom }
        ensures window { self.new.window ≡ self.old.window }
        ensures full { result ≡ Full → self.new ≡ self.old }
    {
        if self.entries.len() + made.len() > MOST_ENTRIES {
            return Keeping::Full;
        }
        self.leaves.add(&self.rom, made);
        let entries = mem::replace(&mut self.entries, MadeEntries::new(alloc));
        if let Ok(merged) = merged(entries, made) {
            self.entries = merged;
        }
        Keeping::Changed
    }

    /// The ROM.
    pub(crate) fn rom(&self) -> &RomImage<'a>
        ensures { result.now ≡ self.now.rom }
    {
        &self.rom
    }

    /// The window.
    pub(crate) fn window(&self) -> Window
        ensures { result ≡ self.now.window }
    {
        self.window
    }

    /// The entries that are kept.
    pub(crate) fn entries(&self) -> &MadeEntries
        ensures { result.now ≡ self.now.list }
    {
        &self.entries
    }

    /// What each of the kept shapes takes, in clocks. Takes memory as [`ShapeClocks::of_all`] does.
    pub(crate) fn clocks(&self, alloc: Global, states: &States) -> Result<ShapeClocks, AllocError>
        ensures { IfOk result (AreTold states.now self.now.rom self.now.list) }
    {
        let list = self.entries.entries(alloc)?;
        ShapeClocks::of_all(alloc, states, &self.rom, &self.entries, &list)
    }

    /// Keeps nothing any more.
    pub(crate) fn forget(&mut self, alloc: Global)
        ensures { self.new ≡ record { rom = self.old.rom; window = self.old.window; list = [] } }
    {
        self.entries = MadeEntries::new(alloc);
    }

    /// Judges a frame as [`judge`](dvg_make::judge) does, over the ROM and the window. The shapes that an accepted frame calls are kept, up
    /// to 4,096 entries in all. Takes memory as [`explain_judging`] does, and for what is kept; without it nothing more is kept.
    pub fn judge(
        &mut self,
        alloc: Global,
        frame: &FrameImage,
        budget: u32,
    ) -> Result<Yes, FrameRefusal>
        requires { budget ≤ MOST_WORDS }
        ensures verdict { VerdictByMade self.old.rom frame.now self.old.window budget result }
        ensures means { IfOk result (λ yes. Means Exact (record { frame = frame.now; rom = self.old.rom }) self.old.window
            yes.words yes.depth) }
        ensures least { IfOk result (λ yes. AreLeast self.old.rom frame.now self.old.window yes.words yes.depth) }
        ensures refused { IfErr result (FrameRefused self.old.rom frame.now self.old.window budget) }
        ensures told { IfErr result (HasCallCause self.old.rom frame.now) }
        ensures rom { self.new.rom ≡ self.old.rom }
        ensures window { self.new.window ≡ self.old.window }
        ensures same { OnErr result (self.new ≡ self.old) }
    {
        if let Some(yes) = self.kept_verdict(alloc, frame, budget) {
            return Ok(yes);
        }
        let judged = explain_judging(alloc, &self.rom, frame, budget, self.window);
        let verdict = own_verdict(&judged);
        if let (Ok(judged), Ok(_)) = (&judged, &verdict) {
            self.keep(alloc, judged.cert.entries());
        }
        verdict
    }
}
