//! Frames over kept shapes, with the clocks that they take.

ghost use Rattle.std.specs.Prelude.{◌≡◌, ◌≤◌, [], IfOk, IfSome};
ghost use Rattle.dvg_cert.specs.declared.limits.TheConstants.{MOST_WORDS};
ghost use Rattle.dvg_words.specs.Memory.{IsRom};
ghost use Rattle.dvg_make.specs.Frames.{FrameMade};
ghost use Rattle.dvg_make.specs.Judging.{VerdictByMade, own_verdict};
ghost use Rattle.dvg_clocks.specs.Judging.{IsTimed};
ghost use Rattle.dvg_kept.specs.Kept.{IsKept};

use crate::kept::{Keeping, KeptShapes};
use dvg_cert::Entry;
use dvg_clocks::{
    ShapeClocks, States, TimedJudging, TimedRefusal, TimedYes, Timing, explain_timed, frame_clocks,
};
use dvg_make::own_verdict;
use dvg_words::{FrameImage, RomImage, Window};
use std::alloc::{AllocError, Global};
use std::marker::Model;

/// Kept shapes, and what each of them takes, in clocks.
#[derive(Drop)]
pub struct TimedShapes<'a> {
    kept: KeptShapes<'a>,
    states: States,
    clocks: ShapeClocks,
}

impl<'a> Model for TimedShapes<'a> {
    ghost use Rattle.dvg_clocks.specs.Kept.{AreTold};
    ghost use Rattle.dvg_kept.specs.Timed.{TimedKept};

    ghost Value = { TimedKept };

    ghost view = { λ timed. record { kept = timed.kept; states = timed.states } };

    ghost invariant = { λ timed. AreTold timed.states timed.kept.rom timed.kept.list timed.clocks };
}

impl<'a> TimedShapes<'a> {
    /// Nothing so far, on a machine whose instructions have these states. Takes memory as [`KeptShapes::new`] does.
    pub fn new(
        alloc: Global,
        rom: RomImage<'a>,
        window: Window,
        states: States,
    ) -> Result<TimedShapes<'a>, AllocError>
        ensures { IfOk result (λ timed. timed ≡ record { kept = record { rom = rom.entry; window = window; list = [] }; states = states }) }
    {
        Ok(TimedShapes {
            kept: KeptShapes::new(alloc, rom, window)?,
            states,
            clocks: ShapeClocks::new(alloc),
        })
    }

    /// The verdict and the clocks of a frame that is accepted over the kept entries; `None` if it isn't, or one of its entries isn't kept.
    fn over_kept(
        &self,
        alloc: Global,
        frame: &FrameImage,
        budget: u32,
        timing: &Timing,
    ) -> Option<Result<TimedYes, TimedRefusal>>
        requires budget { budget ≤ MOST_WORDS }
        requires states { timing.now.states ≡ self.now.states }
        ensures { IfSome result (IsTimed timing.now self.now.kept.rom frame.now self.now.kept.window budget) }
    {
        let yes = self.kept.kept_verdict(alloc, frame, budget)?;
        let clocks = frame_clocks(
            timing,
            self.kept.rom(),
            self.kept.entries(),
            &self.clocks,
            frame,
        );
        Some(match clocks {
            Ok(clocks) => Ok(TimedYes { yes, clocks }),
            Err(at) => Err(TimedRefusal::Slow { at }),
        })
    }

    /// The answer for a frame by its own certificate, and what it was judged by.
    fn judged_anew(
        &self,
        alloc: Global,
        frame: &FrameImage,
        budget: u32,
        timing: &Timing,
    ) -> TimedJudging
        requires { budget ≤ MOST_WORDS }
        ensures timed { IsTimed timing.now self.now.kept.rom frame.now self.now.kept.window budget result.answer }
        ensures own { VerdictByMade self.now.kept.rom frame.now self.now.kept.window budget (own_verdict result.judged) }
        ensures made { IfOk result.judged (λ judged. FrameMade self.now.kept.rom frame.now judged.cert.entries) }
        ensures rom { IsRom self.now.kept.rom }
    {
        let rom = self.kept.rom();
        rom.prove_whole();
        explain_timed(alloc, rom, frame, budget, self.kept.window(), timing)
    }

    /// Keeps the entries of a certificate that was made for a frame, and what their shapes take; without memory nothing is kept.
    fn keep(&mut self, alloc: Global, made: &[Entry])
        requires { IsKept (record { rom = self.old.kept.rom; window = self.old.kept.window; list = made.now }) }
        ensures rom { self.new.kept.rom ≡ self.old.kept.rom }
        ensures window { self.new.kept.window ≡ self.old.kept.window }
        ensures states { self.new.states ≡ self.old.states }
    {
        if self.kept.keep(alloc, made) == Keeping::Full {
            return;
        }
        match self.kept.clocks(alloc, &self.states) {
            Ok(clocks) => self.clocks = clocks,
            Err(_) => self.kept.forget(alloc),
        }
    }

    /// Judges a frame as [`judge_timed`](dvg_clocks::judge_timed) does, over the ROM and the window. `limit` is how many clocks it may take at most. Shapes are kept as
    /// by [`KeptShapes::judge`], with what each of them takes.
    pub fn judge(
        &mut self,
        alloc: Global,
        frame: &FrameImage,
        budget: u32,
        limit: u64,
    ) -> Result<TimedYes, TimedRefusal>
        requires { budget ≤ MOST_WORDS }
        ensures timed { IsTimed (record { states = self.old.states; limit = limit }) self.old.kept.rom frame.now
            self.old.kept.window budget result }
        ensures rom { self.new.kept.rom ≡ self.old.kept.rom }
        ensures window { self.new.kept.window ≡ self.old.kept.window }
        ensures states { self.new.states ≡ self.old.states }
    {
        let timing = Timing {
            states: self.states,
            limit,
        };
        if let Some(timed) = self.over_kept(alloc, frame, budget, &timing) {
            return timed;
        }
        let TimedJudging { judged, answer, .. } = self.judged_anew(alloc, frame, budget, &timing);
        let verdict = own_verdict(&judged);
        if let (Ok(made), Ok(_)) = (&judged, &verdict) {
            self.keep(alloc, made.cert.entries());
        }
        answer
    }
}
