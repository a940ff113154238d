//! The verdict on bytes.

ghost use Rattle.std.specs.Prelude.{IfOk};
ghost use Rattle.dvg_words.specs.declared.machine.Machine.TheVariants.{Profile};
ghost use Rattle.dvg_check.specs.declared.fault.Mode.TheVariants.{Bound, Exact};
ghost use Rattle.dvg_verdict.specs.Verdict.{VerdictOn, Verdict, MeansOn};

use dvg_check::{Mode, Refusal, Yes, check_rom, frame_of};
use dvg_text::read_cert;
use dvg_words::{Machine, Window};
use std::alloc::Global;

/// Judges a frame over the bytes of a vector ROM and of its certificate on a machine in a mode, as [`check`] and [`check_exact`] do
/// on the profile's machine. There a yes for `CLIPPED` says nothing of the screen.
///
/// On the board a yes is about every run of its circuit, too: whatever its registers hold at the start, and whatever is written to
/// memory while it runs, so long as each word that it fetches reads, when it is fetched, as the frame and the ROM have it.
#[tactic(auto, using(crate::proofs::OneVerdict::out_of_range))]
pub fn check_on(
    machine: Machine,
    alloc: Global,
    rom: &[u8],
    cert: &[u8],
    frame: &[u8],
    budget: u32,
    window: Window,
    mode: Mode,
) -> Result<Yes, Refusal>
    ensures verdict { VerdictOn machine mode window rom.now cert.now frame.now budget result }
    ensures means { IfOk result (λ yes. MeansOn machine mode window rom.now cert.now frame.now yes.words yes.depth) }
{
    let frame = frame_of(frame, budget)?;
    let cert = read_cert(alloc, cert)?;
    check_rom(machine, alloc, rom, &frame, &cert, budget, window, mode)
}

/// Judges a frame over a vector ROM and its certificate: a yes means that every run of the generator from the frame's
/// first word is safe.
///
/// `budget` is how many words the frame may take at most, 1 to 1,000,000. The verdict is exact: the first that applies of 2, 49,
/// the certificate's refusal (10 to 16), 1, 50, the first fault of its shapes (20 to 31), the frame's first fault (40 to 48), and
/// the yes. The ROM lies where the certificate says. `window` is where strokes may be lit, `SCREEN` of `dvg_words` for the whole
/// screen; a yes for `CLIPPED` says nothing of the screen. Where it accepts, every run from the frame's first word, at any beam
/// place and any global scale, reaches HALT within the answered count of words, stores at most four return places at once, fetches
/// only words of the ROM and the frame, and draws no lit stroke that leaves the window on either axis.
///
/// Nothing is run: what a shape does from a word on is worked out once for each scale at which it is needed. Takes memory
/// for the certificate's entries and for their index alone, and none before 2 and 49 are ruled out; 16 comes only where there
/// was none for an entry that could be taken, and 50 only where the certificate was taken, the ROM has the length of its map,
/// and there was none for its index.
pub fn check(
    alloc: Global,
    rom: &[u8],
    cert: &[u8],
    frame: &[u8],
    budget: u32,
    window: Window,
) -> Result<Yes, Refusal>
    ensures verdict { Verdict Bound window rom.now cert.now frame.now budget result }
    ensures means { IfOk result (λ yes. MeansOn Profile Bound window rom.now cert.now frame.now yes.words yes.depth) }
{
    check_on(
        Machine::Profile,
        alloc,
        rom,
        cert,
        frame,
        budget,
        window,
        Mode::Bound,
    )
}

/// Judges a frame over a vector ROM and its certificate as [`check`] does, the claimed counts being exact: 32 and 33 come after
/// the other rules of shapes.
///
/// What it accepts is safe, and every run of the generator from the frame's first word has fetched just the answered count of
/// words at its HALT, and has stored just the answered number of return places at once. The budget stays a bound, and so do
/// boxes. A yes for `CLIPPED` says nothing of the screen.
pub fn check_exact(
    alloc: Global,
    rom: &[u8],
    cert: &[u8],
    frame: &[u8],
    budget: u32,
    window: Window,
) -> Result<Yes, Refusal>
    ensures verdict { Verdict Exact window rom.now cert.now frame.now budget result }
    ensures means { IfOk result (λ yes. MeansOn Profile Exact window rom.now cert.now frame.now yes.words yes.depth) }
{
    check_on(
        Machine::Profile,
        alloc,
        rom,
        cert,
        frame,
        budget,
        window,
        Mode::Exact,
    )
}
