//! The verdict on a frame by the certificate that is made for it.

ghost use Rattle.std.specs.Prelude.{◌≡◌, ◌↔◌, ◌≤◌, [], ◌∷◌, IsTrue, OnOk, IfOk, IfErr};
ghost use Rattle.dvg_cert.specs.declared.limits.TheConstants.{MOST_WORDS};
ghost use Rattle.dvg_check.specs.Means.{Means};
ghost use Rattle.dvg_check.specs.Causes.{ShapeCauseOf, TellsOf};
ghost use Rattle.dvg_check.specs.Finding.{FirstShapeFound, ShapeFaultFound};
ghost use Rattle.dvg_check.specs.Rules.{Good, GoodShape};
ghost use Rattle.dvg_check.specs.declared.fault.Mode.TheVariants.{Exact};
ghost use Rattle.dvg_make.specs.Accounts.{entry_fault, IsAccount};
ghost use Rattle.dvg_cert.specs.Entry.{IsClaim};
ghost use Rattle.dvg_make.specs.Frames.{FrameMade};
ghost use Rattle.dvg_make.specs.Made.{MadeEntry};
ghost use Rattle.dvg_make.specs.Refusals.{FramesRefuse};
ghost use Rattle.dvg_make.specs.Private.Judged.{IsJudged, IsOwn, IsRelative};
ghost use Rattle.dvg_make.specs.Judging.{AreLeast, FrameRefused, VerdictByMade, HasCallCause, checked, own_verdict, refusal_by};

use crate::account::{MakeAccount, account_of};
use crate::fault::{EntryFault, FramesFault};
use crate::made_entries::MadeEntries;
use crate::maker::{MadeCert, make_indexed};
use dvg_cert::{Cert, End, Entry};
use dvg_check::{Finding, JudgedShapes, Mode, Refusal, ShapeFinding, Yes, judge_entry};
use dvg_words::{FrameImage, RomImage, Window};
use std::alloc::Global;
use std::slice;

/// Why a frame is refused by the certificate that is made for it, or why none is made.
#[derive(Clone, Copy, Debug, PartialEq, Eq)]
pub enum FrameRefusal {
    /// 60 to 62: the entry that the item at this word of the frame calls can't be made.
    Make { at: u16, why: EntryFault },
    /// 63: there was no memory for the certificate.
    NoMemory,
    /// The checker's refusal: the first fault of the made shapes or of the frame.
    Check(Refusal),
}

/// The refusal of a frame for which no certificate was made.
fn refusal_of(fault: &FramesFault) -> FrameRefusal
    ensures { result ≡ refusal_by fault.now }
{
    match (fault.call, fault.why) {
        (None, _) | (_, EntryFault::Memory) => FrameRefusal::NoMemory,
        (Some(call), why) => FrameRefusal::Make { at: call.at, why },
    }
}

/// How many made entries are judged item by item at most. If more would have to be, all shapes are judged at once instead.
const MOST_WALKED: usize = 8;

/// Whether a made entry ends at a place relative to its call. Then no item of its shape stands at an absolute place, so none lights
/// outside any window.
fn is_relative(entry: &Entry) -> bool
    ensures { IsTrue result ↔ IsRelative entry.now.stop }
{
    matches!(entry.stop, End::Rel { .. })
}

/// Whether at most [`MOST_WALKED`] of these made entries end at a place that is absolute or lost.
fn has_few_to_walk(entries: &[Entry]) -> bool {
    entries
        .iter()
        .filter(|entry| !is_relative(entry))
        .nth(MOST_WALKED)
        .is_none()
}

/// Judges the shape of a made entry. It keeps all rules of shapes but the one on what is lit at absolute places, so it is good if it
/// ends at a relative place, and is judged item by item else.
fn find_made_entry_fault(
    rom: &RomImage,
    entries: &MadeEntries,
    entry: &Entry,
    window: &Window,
) -> Result<(), ShapeFinding>
    requires entry { IsClaim entry.now }
    requires made { MadeEntry rom.now entries.now entry.now }
    ensures ok { OnOk result (GoodShape Exact window.now rom.now entries.now entry.now) }
    ensures err { IfErr result (λ finding. ShapeFaultFound Exact window.now rom.now entries.now entry.now finding) }
    ensures place { IfErr result (λ finding. (finding.fault.addr ≡ entry.now.addr) × (finding.fault.key ≡ entry.now.key)) }
    ensures entry { IfErr result (λ finding. finding.entry ≡ entry.now) }
    ensures cause { IfErr result (ShapeCauseOf window.now) }
{
    if is_relative(entry) {
        return Ok(());
    }
    judge_entry(Mode::Exact, window, rom, entries, entry)
}

/// Judges the shapes of the entries that were made for a frame, one by one, in the order of the certificate.
fn find_made_fault(
    rom: &RomImage,
    frame: &FrameImage,
    made: &MadeCert,
    window: &Window,
) -> Result<(), ShapeFinding>
    requires made { IsOwn rom.now frame.now made.now }
    ensures ok { OnOk result (Good Exact window.now rom.now made.now.cert.entries) }
    ensures err { IfErr result (FirstShapeFound Exact window.now rom.now made.now.cert.entries) }
    ensures cause { IfErr result (ShapeCauseOf window.now) }
{
    let list = made.cert.entries();
    let mut index = 0;
    'entries: while index < list.len() {
        if let Err(finding) = find_made_entry_fault(rom, &made.entries, &list[index], window) {
            return Err(finding);
        }
        index += 1;
    }
    Ok(())
}

/// The shapes of the entries that were made for a frame, judged.
///
/// To judge all shapes at once costs some 17 tails for each word of the ROM at most, to judge one item by item as much as it has
/// items: so that is done for a few of them alone.
fn judged_shapes<'a>(
    rom: &'a RomImage<'a>,
    frame: &FrameImage,
    made: &'a MadeCert,
    window: Window,
) -> Result<JudgedShapes<'a, MadeEntries>, ShapeFinding>
    requires made { IsOwn rom.now frame.now made.now }
    ensures ok { IfOk result (λ shapes. shapes ≡ record { rom = rom.now; list = made.now.cert.entries; window = window; mode = Exact }) }
    ensures good { OnOk result (Good Exact window rom.now made.now.cert.entries) }
    ensures err { IfErr result (FirstShapeFound Exact window rom.now made.now.cert.entries) }
    ensures cause { IfErr result (ShapeCauseOf window) }
{
    if !has_few_to_walk(made.cert.entries()) {
        return JudgedShapes::judge_shapes(rom, &made.cert, &made.entries, window, Mode::Exact);
    }
    if let Err(finding) = find_made_fault(rom, frame, made, &window) {
        return Err(finding);
    }
    Ok(JudgedShapes::unchecked(rom, &made.entries, window, Mode::Exact))
}

/// The checker's verdict on a frame by what was made for it.
#[inline(never)]
fn check_made(
    rom: &RomImage,
    frame: &FrameImage,
    made: &MadeCert,
    budget: u32,
    window: Window,
) -> Result<Yes, Finding>
    requires budget { budget ≤ MOST_WORDS }
    requires made { IsOwn rom.now frame.now made.now }
    ensures judged { IsJudged rom.now frame.now window budget (checked result) }
    ensures found { IfErr result (TellsOf Exact window rom.now made.now.cert.entries frame.now budget) }
{
    let shapes = match judged_shapes(rom, frame, made, window) {
        Ok(shapes) => shapes,
        Err(finding) => return Err(Finding::Shape(finding)),
    };
    match shapes.judge_frame(frame, budget) {
        Ok(accepted) => Ok(Yes {
            shapes: made.cert.entries().len() as u32,
            words: accepted.words,
            depth: accepted.depth,
        }),
        Err(finding) => Err(Finding::Frame(finding)),
    }
}

/// The checker's verdict by the certificate that was made for a frame, without the cause of a refusal.
fn checked(verdict: &Result<Yes, Finding>) -> Result<Yes, FrameRefusal>
    ensures { result ≡ checked verdict.now }
{
    match verdict {
        Ok(yes) => Ok(*yes),
        Err(finding) => Err(FrameRefusal::Check(finding.refusal())),
    }
}

/// Judges a frame over a vector ROM by the certificate that is made for it: no certificate does better.
///
/// `budget` is how many words the frame may take at most, up to 1,000,000, `window` where strokes may be lit. On the profile a yes
/// for `CLIPPED` says nothing of the screen. What is accepted is safe, with exact counts, as [`check_parts_exact`] says, and no
/// certificate gets the frame accepted with fewer words or less depth. The answer is the refusal of [`make_for_frames`] for the
/// first call whose entry is not made, else that of the checker on the made certificate; it means that no certificate gets the frame
/// accepted, but for 62 by the number of entries, where another one may, and for 63, where memory was out. 62 by the number of
/// entries comes only where the calls up to this one really need too many. If the ROM is on the board, what is accepted is safe on
/// its circuit, too, whatever its registers hold at the start. Takes memory for the certificate and its making.
pub fn judge(
    alloc: Global,
    rom: &RomImage,
    frame: &FrameImage,
    budget: u32,
    window: Window,
) -> Result<Yes, FrameRefusal>
    requires { budget ≤ MOST_WORDS }
    ensures verdict { VerdictByMade rom.now frame.now window budget result }
    ensures means { IfOk result (λ yes. Means Exact (record { frame = frame.now; rom = rom.now }) window yes.words yes.depth) }
    ensures least { IfOk result (λ yes. AreLeast rom.now frame.now window yes.words yes.depth) }
    ensures refused { IfErr result (FrameRefused rom.now frame.now window budget) }
    ensures told { IfErr result (HasCallCause rom.now frame.now) }
{
    match make_indexed(alloc, rom, &[], slice::from_ref(frame)) {
        Ok(made) => checked(&check_made(rom, frame, &made, budget, window)),
        Err(blocked) => Err(refusal_of(&blocked.fault())),
    }
}

/// A frame that was judged by its own certificate: that certificate, and the verdict by it, with the cause of a refusal.
#[derive(Drop)]
pub struct JudgedFrame {
    pub cert: Cert,
    pub verdict: Result<Yes, Finding>,
}

/// Judges a frame as [`judge`] does, and answers the certificate, too, and the cause of a refusal by it; or the account of
/// [`explain_making`], if none is made.
///
/// If there is no memory for that account, it is 63. On the profile a yes for `CLIPPED` says nothing of the screen. Takes memory as
/// `judge` and `explain_making` do.
pub fn explain_judging(
    alloc: Global,
    rom: &RomImage,
    frame: &FrameImage,
    budget: u32,
    window: Window,
) -> Result<JudgedFrame, MakeAccount>
    requires { budget ≤ MOST_WORDS }

    // The verdict is one of `judge`.
    ensures verdict { VerdictByMade rom.now frame.now window budget (own_verdict result) }
    ensures means { IfOk (own_verdict result) (λ yes. Means Exact (record { frame = frame.now; rom = rom.now }) window yes.words yes.depth) }
    ensures least { IfOk (own_verdict result) (λ yes. AreLeast rom.now frame.now window yes.words yes.depth) }
    ensures refused { IfErr (own_verdict result) (FrameRefused rom.now frame.now window budget) }
    ensures told { IfErr (own_verdict result) (HasCallCause rom.now frame.now) }

    // What was made, or why not, is an answer of `explain_making`.
    ensures ok { IfOk result (λ judged. FrameMade rom.now frame.now judged.cert.entries) }
    ensures map { IfOk result (λ judged. judged.cert.map ≡ rom.now.map) }
    ensures err { IfErr result (λ account. FramesRefuse rom.now [] (frame.now ∷ []) account.fault) }
    ensures why { IfErr result (λ account. account.fault.why ≡ entry_fault account.at account.cause) }
    ensures chain { IfErr result (IsAccount rom.now [] (frame.now ∷ [])) }

    // A refusal by the certificate comes with what is known at the first fault by it, and the rule's own numbers.
    ensures found { IfOk result (λ judged. IfErr judged.verdict (TellsOf Exact window rom.now judged.cert.entries frame.now budget)) }
{
    match make_indexed(alloc, rom, &[], slice::from_ref(frame)) {
        Ok(made) => {
            let verdict = check_made(rom, frame, &made, budget, window);
            Ok(JudgedFrame {
                cert: made.cert,
                verdict,
            })
        }
        Err(blocked) => Err(account_of(alloc, &blocked)),
    }
}

/// The verdict of [`judge`] that an answer of [`explain_judging`] gives.
pub fn own_verdict(judged: &Result<JudgedFrame, MakeAccount>) -> Result<Yes, FrameRefusal>
    ensures { result ≡ own_verdict judged.now }
{
    match judged {
        Ok(judged) => checked(&judged.verdict),
        Err(account) => Err(refusal_of(&account.fault)),
    }
}
