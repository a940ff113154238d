//! Shapes that were judged, over which frames are judged.

ghost use Rattle.std.specs.Prelude.{◌≡◌, ◌≤◌, OnOk, IfOk, IfErr};
ghost use Rattle.dvg_cert.specs.declared.limits.TheConstants.{MOST_WORDS};
ghost use Rattle.dvg_items.specs.Bounds.{IsSomeCertificate};
ghost use Rattle.dvg_check.specs.Rules.{Good, GoodFrame};
ghost use Rattle.dvg_check.specs.FirstFault.{FirstShapeFault, FirstFrameFault};
ghost use Rattle.dvg_check.specs.Causes.{CauseOf, ShapeCauseOf};
ghost use Rattle.dvg_check.specs.Finding.{FirstFrameFound, FirstShapeFound, IsSoundFound};
ghost use Rattle.dvg_check.specs.Means.{Means};

use crate::fault::{FrameFault, FrameFinding, Mode, ShapeFault, ShapeFinding};
use crate::frames::{Accepted, judge_frame};
use crate::shapes::judge_shapes;
use dvg_cert::{Cert, Entries};
use dvg_words::{FrameImage, RomImage, Window};
use std::marker::Model;

/// A vector ROM, all of whose shapes keep all rules by the entries of a certificate, and light in a window.
///
/// The shapes are judged once, and then as many frames as there are: what [`check_frame`](JudgedShapes::check_frame) accepts
/// is safe.
#[derive(Drop)]
pub struct JudgedShapes<'a, E: Entries> {
    rom: &'a RomImage<'a>,
    entries: &'a E,
    window: Window,
    mode: Mode,
}

impl<'a, E: Entries> Model for JudgedShapes<'a, E> {
    ghost use Rattle.dvg_check.specs.Judged.{Shapes, IsJudged};

    ghost Value = { Shapes };

    ghost view = { λ s. record { rom = s.rom.now; list = E.list s.entries.now; window = s.window; mode = s.mode } };

    ghost invariant = { λ s. IsJudged (record { rom = s.rom.now; list = E.list s.entries.now; window = s.window; mode = s.mode }) };
}

impl<'a, E: Entries> JudgedShapes<'a, E> {
    /// Judges each entry's shape in a mode, as [`check_shapes`](crate::check_shapes) and
    /// [`check_shapes_exact`](crate::check_shapes_exact) do.
    ///
    /// `entries` are those of the certificate, and the ROM lies where it says. `window` is where strokes may be lit, here and by the
    /// frames judged over these shapes. On the profile a yes for `CLIPPED` says nothing of the screen. Takes no memory but the
    /// stack's.
    pub fn judge(
        rom: &'a RomImage<'a>,
        cert: &Cert,
        entries: &'a E,
        window: Window,
        mode: Mode,
    ) -> Result<JudgedShapes<'a, E>, ShapeFault>
        requires entries { E.list entries.now ≡ cert.now.entries }
        requires map { rom.now.map ≡ cert.now.map }
        ensures ok { IfOk result (λ shapes. shapes ≡ record { rom = rom.now; list = cert.now.entries; window = window; mode = mode }) }
        ensures good { OnOk result (Good mode window rom.now cert.now.entries) }
        ensures err { IfErr result (FirstShapeFault mode window rom.now cert.now.entries) }
    {
        match JudgedShapes::judge_shapes(rom, cert, entries, window, mode) {
            Ok(shapes) => Ok(shapes),
            Err(finding) => Err(finding.fault),
        }
    }

    /// Judges each entry's shape, as [`judge`](JudgedShapes::judge) does; with the first fault it answers what the function
    /// [`judge_shapes`] does. On the profile a yes for `CLIPPED` says nothing of the screen.
    pub fn judge_shapes(
        rom: &'a RomImage<'a>,
        cert: &Cert,
        entries: &'a E,
        window: Window,
        mode: Mode,
    ) -> Result<JudgedShapes<'a, E>, ShapeFinding>
        requires entries { E.list entries.now ≡ cert.now.entries }
        requires map { rom.now.map ≡ cert.now.map }
        ensures ok { IfOk result (λ shapes. shapes ≡ record { rom = rom.now; list = cert.now.entries; window = window; mode = mode }) }
        ensures good { OnOk result (Good mode window rom.now cert.now.entries) }
        ensures err { IfErr result (FirstShapeFound mode window rom.now cert.now.entries) }
        ensures sound { IfErr result (λ finding. IsSoundFound finding.found) }
        ensures cause { IfErr result (ShapeCauseOf window) }
    {
        rom.prove_whole();
        cert.prove_certificate();
        judge_shapes(rom, cert, entries, &window, mode)?;
        Ok(JudgedShapes {
            rom,
            entries,
            window,
            mode,
        })
    }

    /// Where shapes and frames may light: a part of the screen, or `CLIPPED`, on the profile, too.
    pub fn window(&self) -> Window
        ensures { result ≡ self.now.window }
    {
        self.window
    }

    /// Judges a frame over these shapes, as [`check_frame`](JudgedShapes::check_frame) does; with its first fault it answers what
    /// is known there: place, scale, words and depth before the item that breaks a rule, what stands there, and the rule's own
    /// numbers (profile). On the profile a yes for `CLIPPED` says nothing of the screen.
    #[inline(never)]
    pub fn judge_frame(&self, frame: &FrameImage, budget: u32) -> Result<Accepted, FrameFinding>
        requires { budget ≤ MOST_WORDS }
        ensures ok { IfOk result (λ yes. GoodFrame self.now.window self.now.rom.machine frame.now self.now.list budget yes.words yes.depth) }
        ensures err { IfErr result (FirstFrameFound self.now.window self.now.rom.machine frame.now self.now.list budget) }
        ensures sound { IfErr result (λ finding. IsSoundFound finding.found) }
        ensures cause { IfErr result (CauseOf self.now.window budget) }
        ensures means { IfOk result (λ yes. Means self.now.mode (record { frame = frame.now; rom = self.now.rom }) self.now.window yes.words yes.depth) }
    {
        frame.prove_whole();
        let machine = self.rom.machine();
        self.window.prove_for_board();
        judge_frame(machine, frame, self.entries, budget, &self.window)
    }

    /// Shapes that are known to be good in this mode, such as those that [`judge`](JudgedShapes::judge) took before, kept with
    /// their ROM, their entries and their window. On the profile a yes for `CLIPPED` says nothing of the screen. Takes no memory.
    pub fn unchecked(
        rom: &'a RomImage<'a>,
        entries: &'a E,
        window: Window,
        mode: Mode,
    ) -> JudgedShapes<'a, E>
        requires list { IsSomeCertificate (E.list entries.now) }
        requires good { Good mode window rom.now (E.list entries.now) }
        ensures { result ≡ record { rom = rom.now; list = E.list entries.now; window = window; mode = mode } }
    {
        rom.prove_whole();
        JudgedShapes {
            rom,
            entries,
            window,
            mode,
        }
    }

    /// Judges a frame over these shapes: its words and its depth where it keeps all rules (40 to 48, profile), else its
    /// first fault.
    ///
    /// `budget` is how many words the frame may take at most, up to 1,000,000. Where it answers words and depth, every
    /// run of the generator from the frame's first word, at any beam place and any global scale, reaches HALT within so many
    /// words, stores at most so many return places at once, and four at most, fetches only words of the ROM and the
    /// frame, and draws no lit stroke that leaves the window on either axis. On the profile a yes for `CLIPPED` says nothing of the
    /// screen. Over shapes that were judged in the mode [`Exact`](Mode::Exact) it fetches just so many words, and has stored just so
    /// many return places at once. If the ROM is on the board, the same holds of its circuit, whatever its other registers hold at the
    /// start, so long as each word that it fetches reads, when it is fetched, as the frame and the ROM have it. Takes no memory.
    pub fn check_frame(&self, frame: &FrameImage, budget: u32) -> Result<Accepted, FrameFault>
        requires { budget ≤ MOST_WORDS }
        ensures ok { IfOk result (λ yes. GoodFrame self.now.window self.now.rom.machine frame.now self.now.list budget yes.words yes.depth) }
        ensures err { IfErr result (FirstFrameFault self.now.window self.now.rom.machine frame.now self.now.list budget) }
        ensures means { IfOk result (λ yes. Means self.now.mode (record { frame = frame.now; rom = self.now.rom }) self.now.window yes.words yes.depth) }
    {
        match self.judge_frame(frame, budget) {
            Ok(accepted) => Ok(accepted),
            Err(finding) => Err(finding.fault),
        }
    }
}
