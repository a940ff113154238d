//! What the items of a frame call and light, from one walk over them.

ghost use Rattle.std.specs.Prelude.{◌≡◌, [], IfOk, OnOk};
ghost use Rattle.dvg_words.specs.Memory.{frame_word};
ghost use Rattle.dvg_items.specs.Bounds.{IsSoundSeen};
ghost use Rattle.dvg_items.specs.Known.{Context, frame_context};
ghost use Rattle.dvg_survey.specs.Clipping.{ClippedPast};
ghost use Rattle.dvg_survey.specs.Faint.{is_faint, faint_past};
ghost use Rattle.dvg_survey.specs.Survey.{IsSurvey, IsSurveyAmong};
ghost use Rattle.dvg_survey.specs.Private.Surveying.{IsSurveyPast};

use crate::calls::Call;
use crate::items::{lit_with, push_call};
use dvg_cert::{Cert, Entries, Key, LitBox};
use dvg_items::{Seen, SeenItems, WalkContext, lit_in_window};
use dvg_words::{FrameImage, FrameOn, Instr, Machine, SCREEN};
use std::alloc::{AllocError, Global};

/// The greatest effective scale at which a draw has its length.
const MOST_SCALE: u16 = 9;

/// What a frame's own items call and light. It leaves out what the called shapes themselves light at absolute places.
#[derive(Drop)]
pub struct FrameSurvey {
    /// The calls that name an entry, in their order.
    pub calls: Vec<Call>,
    /// The least box, in 1/1024 of a screen place, of what is lit at absolute places: both ends of lit draws, and the corners of the
    /// boxes of called shapes.
    pub lit: LitBox,
    /// The word addresses, in their order, of the items that light past the screen: lit draws with an end off the screen, and calls
    /// of shapes whose box has a corner off it. A board clips them as far as they lie within -1024 to 2047.
    pub clipped: Vec<u16>,
    /// The word addresses, in their order, of the lit draws at a known effective scale of 10 to 15.
    pub faint: Vec<u16>,
}

/// Whether an instruction is a lit draw whose effective scale is 10 to 15, where this scale is known.
pub fn is_faint(instr: &Instr, scale: Key) -> bool
    ensures { result ≡ is_faint instr.now scale }
{
    match (instr, scale) {
        (Instr::Draw(draw), Key::At(scale)) => {
            draw.bright != 0 && (u16::from(draw.lscale) + u16::from(scale)) % 16 > MOST_SCALE
        }
        _ => false,
    }
}

/// Adds the word address of an item, if a corner of what it lights at an absolute place is off the screen.
fn push_clipped(clipped: &mut Vec<u16>, seen: &Seen) -> Result<(), AllocError>
    requires { IsSoundSeen seen.now }
    ensures { OnOk result (ClippedPast clipped.old.items seen.now.item.at seen.now.extent seen.now.place clipped.new.items) }
{
    if !lit_in_window(&SCREEN, &seen.extent, &seen.place) {
        clipped.push(seen.item.at)?;
    }
    Ok(())
}

/// Adds the word address of an item, if it is a lit draw at an effective scale of 10 to 15, where this scale is known before it.
fn push_faint(faint: &mut Vec<u16>, seen: &Seen, scale: Key) -> Result<(), AllocError>
    ensures { OnOk result (faint.new.items ≡ faint_past faint.old.items seen.now.item scale) }
{
    if is_faint(&seen.item.instr, scale) {
        faint.push(seen.item.at)?;
    }
    Ok(())
}

impl FrameSurvey {
    /// The survey of no item. Takes no memory.
    pub fn empty(alloc: Global) -> FrameSurvey
        ensures { (c : Context) → IsSurveyAmong c [] result }
    {
        FrameSurvey {
            calls: Vec::new(alloc),
            lit: LitBox::Empty,
            clipped: Vec::new(alloc),
            faint: Vec::new(alloc),
        }
    }

    /// Adds what an item calls and lights, before which this scale is known.
    fn add(&mut self, seen: &Seen, scale: Key) -> Result<(), AllocError>
        requires { IsSoundSeen seen.now }
        ensures { OnOk result (IsSurveyPast self.old seen.now scale self.new) }
    {
        push_call(&mut self.calls, &seen.item, &seen.callee)?;
        self.lit = lit_with(&self.lit, seen);
        push_clipped(&mut self.clipped, seen)?;
        push_faint(&mut self.faint, seen, scale)
    }
}

/// What all items of a frame call and light, by the claims of these entries.
#[inline(never)]
pub fn survey_items<E: Entries>(
    alloc: Global,
    frame: &FrameOn,
    entries: &E,
) -> Result<FrameSurvey, AllocError>
    ensures { IfOk result (IsSurvey (frame_context frame.now.machine (E.list entries.now)) (frame_word frame.now.machine frame.now.frame)) }
{
    let mut survey = FrameSurvey::empty(alloc);
    let mut scale = Key::Any;
    for seen in SeenItems::new(frame, entries, &WalkContext::frame()) {
        survey.add(&seen, scale)?;
        scale = seen.after.scale;
    }
    Ok(survey)
}

/// What a frame's own items call and light on a machine, by the certificate's claims (profile). A call that names no entry is left
/// out; an accepted frame has no such call. `entries` are those of the certificate. Takes memory for the three lists; an `Err` says
/// that there was none.
pub fn survey_frame<E: Entries>(
    machine: Machine,
    alloc: Global,
    cert: &Cert,
    entries: &E,
    frame: &FrameImage,
) -> Result<FrameSurvey, AllocError>
    requires { E.list entries.now ≡ cert.now.entries }
    ensures { IfOk result (IsSurvey (frame_context machine cert.now.entries) (frame_word machine frame.now)) }
{
    cert.prove_certificate();
    survey_items(alloc, &FrameOn::new(machine, frame), entries)
}
