//! The clocks of frames.

ghost use Rattle.std.specs.Prelude.{◌≡◌, ◌≤◌, ℕ, IfOk, IfErr};
ghost use Rattle.dvg_words.specs.declared.machine.Machine.TheVariants.{Board};
ghost use Rattle.dvg_items.specs.Bounds.{IsSomeCertificate};
ghost use Rattle.dvg_clocks.specs.Clocks.{TakenOnCircuit, clocks_of_instr};
ghost use Rattle.dvg_clocks.specs.Forecasts.{clocks_known};
ghost use Rattle.dvg_clocks.specs.Sums.{AreGood, IsAcceptedFrame, IsFirstOver, frame_sum};
ghost use Rattle.dvg_clocks.specs.Kept.{AreTold};

use crate::clocks::{ClockRange, States};
use crate::items::{ScaleCursor, SeesItems, Unseen, items_clocks};
use crate::shapes::ShapeClocks;
use dvg_cert::{Entries, Key};
use dvg_items::Kind;
use dvg_words::{FrameImage, FrameOn, RomImage};

/// By which table the clocks of a frame are counted, and how many it may take at most.
#[derive(Clone, Copy, Debug, PartialEq, Eq)]
pub struct Timing {
    pub states: States,
    pub limit: u64,
}

/// What a frame takes that was accepted over these shapes, in clocks: on the circuit never more than the most, and when it has halted,
/// no less than the least. `Err` has the word address of the first item with which the most is over the limit. Takes no memory.
pub fn frame_clocks<E: Entries>(
    timing: &Timing,
    rom: &RomImage,
    entries: &E,
    shapes: &ShapeClocks,
    frame: &FrameImage,
) -> Result<ClockRange, u16>
    requires certificate { IsSomeCertificate (E.list entries.now) }
    requires good { AreGood rom.now (E.list entries.now) }
    requires told { AreTold timing.now.states rom.now (E.list entries.now) shapes.now }
    requires frame { (words : ℕ) × IsAcceptedFrame (record { frame = frame.now; rom = rom.now }) (E.list entries.now) words }
    ensures value { (words : ℕ) → IsAcceptedFrame (record { frame = frame.now; rom = rom.now }) (E.list entries.now) words
        → IfOk result (λ clocks. clocks ≡ frame_sum (clocks_known timing.now.states) (record { frame = frame.now; rom = rom.now })
        (E.list entries.now) words) }
    ensures ordered { IfOk result (λ clocks. clocks.least ≤ clocks.most) }
    ensures within { IfOk result (λ clocks. clocks.most ≤ timing.now.limit) }
    ensures circuit { rom.now.machine ≡ Board
        → IfOk result (TakenOnCircuit (clocks_of_instr timing.now.states) (record { frame = frame.now; rom = rom.now })) }
    ensures err { IfErr result (IsFirstOver timing.now.states (record { frame = frame.now; rom = rom.now }) (E.list entries.now)
        timing.now.limit) }
{
    frame_clocks_seen(timing, rom, entries, shapes, frame, &mut Unseen)
}

/// The same, with what sees the frame's items up to the last one, or to the first with which the most is over the limit.
pub fn frame_clocks_seen<E: Entries, S: SeesItems>(
    timing: &Timing,
    rom: &RomImage,
    entries: &E,
    shapes: &ShapeClocks,
    frame: &FrameImage,
    seen: &mut S,
) -> Result<ClockRange, u16>
    requires certificate { IsSomeCertificate (E.list entries.now) }
    requires good { AreGood rom.now (E.list entries.now) }
    requires told { AreTold timing.now.states rom.now (E.list entries.now) shapes.now }
    requires frame { (words : ℕ) × IsAcceptedFrame (record { frame = frame.now; rom = rom.now }) (E.list entries.now) words }
    ensures value { (words : ℕ) → IsAcceptedFrame (record { frame = frame.now; rom = rom.now }) (E.list entries.now) words
        → IfOk result (λ clocks. clocks ≡ frame_sum (clocks_known timing.now.states) (record { frame = frame.now; rom = rom.now })
        (E.list entries.now) words) }
    ensures ordered { IfOk result (λ clocks. clocks.least ≤ clocks.most) }
    ensures within { IfOk result (λ clocks. clocks.most ≤ timing.now.limit) }
    ensures circuit { rom.now.machine ≡ Board
        → IfOk result (TakenOnCircuit (clocks_of_instr timing.now.states) (record { frame = frame.now; rom = rom.now })) }
    ensures err { IfErr result (IsFirstOver timing.now.states (record { frame = frame.now; rom = rom.now }) (E.list entries.now)
        timing.now.limit) }
{
    rom.prove_whole();
    frame.prove_whole();
    let memory = FrameOn::new(rom.machine(), frame);
    let first = ScaleCursor {
        kind: Kind::Frame,
        at: 0,
        scale: Key::Any,
    };
    items_clocks(
        &timing.states,
        &memory,
        entries,
        shapes,
        &first,
        timing.limit,
        seen,
    )
}
