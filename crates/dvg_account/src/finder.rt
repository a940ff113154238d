//! Finds the remarks on a frame: looks at its list, and once at each shape that it reaches.

ghost use Rattle.std.specs.Prelude.{IfOk};
ghost use Rattle.std.specs.List.Sorted.{IsStrictlySortedBy};
ghost use Rattle.dvg_account.specs.contracts.remarked.FrameRemarkOrd.TheImpl.{ghosts as orders};

use crate::beginnings::Beginnings;
use crate::beside::leads_beside;
use crate::frame_list::list_remarks;
use crate::inputs::Inputs;
use crate::item::instruction_at;
use crate::labs_watch::LabsWatch;
use crate::remarked::{FrameRemark, in_order};
use crate::shape_items::{ShapeItems, from_address};
use dvg_cert::{Cert, End, Entry, HashIndex, LitBox, MOST_ENTRIES};
use dvg_labels::Labels;
use dvg_spelling::RemarkKind;
use dvg_survey::{FrameSurvey, is_faint};
use dvg_words::{FrameOn, Instr, RomImage};
use std::alloc::{AllocError, Global};

/// From how many draws on a shape that lights nothing is remarked: one alone is taken for a space between letters.
const FIGURE_DRAWS: usize = 2;

/// What the remarks are found by, the entries that the frame reaches, and the remarks so far.
#[derive(Drop)]
pub struct Finder<'a> {
    cert: &'a Cert,
    entries: HashIndex<'a>,
    labels: Option<&'a Labels>,
    beginnings: Beginnings<'a>,
    /// The entries in the order in which the frame reaches them, each once.
    reached: Vec<Entry>,
    remarks: Vec<FrameRemark>,
}

impl<'a> Finder<'a> {
    /// Nothing so far, by a certificate and the index of its entries.
    pub fn new(
        alloc: Global,
        inputs: &Inputs<'a>,
        cert: &'a Cert,
        entries: HashIndex<'a>,
        rom: &'a RomImage<'a>,
    ) -> Result<Finder<'a>, AllocError> {
        Ok(Finder {
            cert,
            entries,
            labels: inputs.labels,
            beginnings: Beginnings::new(alloc, inputs, rom)?,
            reached: Vec::new(alloc),
            remarks: Vec::new(alloc),
        })
    }

    /// Looks at the frame's own list. The survey is this list's.
    pub fn find_in_frame(
        &mut self,
        alloc: Global,
        frame: &FrameOn,
        survey: &FrameSurvey,
    ) -> Result<(), AllocError> {
        self.note_some(RemarkKind::ScaleOver9, first_shrunk(frame, &survey.faint))?;
        for call in &survey.calls {
            self.reach(&call.entry)?;
        }
        self.remarks
            .extend_from_slice(&list_remarks(alloc, self.beginnings.rom, frame)?)
    }

    /// Looks at the shapes that the frame reaches.
    pub fn find_in_shapes(&mut self) -> Result<(), AllocError> {
        for index in 0..MOST_ENTRIES {
            let Some(entry) = self.reached.get(index).copied() else {
                break;
            };
            self.find_in_shape(&entry)?;
        }
        Ok(())
    }

    /// Looks at the shape of an entry.
    fn find_in_shape(&mut self, entry: &Entry) -> Result<(), AllocError> {
        let mut watch = LabsWatch::new();
        let mut shrunk = None;
        let mut moves = 0usize;
        let later = from_address(self.cert.entries(), Some(entry.addr));
        let mut items = ShapeItems::of(entry, later);
        while let Some(next) = items.next(&self.entries, &self.beginnings) {
            let instr = &next.item.instr;
            if has_length(instr) {
                moves = moves.saturating_add(1);
                if is_faint(instr, next.scale) {
                    shrunk = shrunk.or(Some(next.item.at));
                }
            }
            self.note_some(RemarkKind::RunsOn, next.meets.map(|(at, _)| at))?;
            if let Some(remark) = watch.pass(&next.item) {
                self.remarks.push(remark)?;
            }
            if let Some(called) = next.called {
                self.reach(&called)?;
            }
            if let Some(entry) = next.goes_on {
                self.reach_once(&entry)?;
            }
        }
        self.note_some(RemarkKind::ScaleOver9, shrunk)?;
        if lights_nothing(entry) && moves >= FIGURE_DRAWS {
            self.note(RemarkKind::NothingLit, entry.addr)?;
        }
        Ok(())
    }

    /// Comes to an entry by a call.
    fn reach(&mut self, entry: &Entry) -> Result<(), AllocError> {
        self.reach_once(entry)?;
        match self.labels {
            Some(labels) if leads_beside(self.beginnings.rom, labels, entry.addr) => {
                self.note(RemarkKind::BesideLabel, entry.addr)
            }
            _ => Ok(()),
        }
    }

    /// Adds an entry to those that are reached, unless it is there.
    fn reach_once(&mut self, entry: &Entry) -> Result<(), AllocError> {
        let is_known = self
            .reached
            .iter()
            .any(|known| known.is_at(entry.addr, entry.key));
        if !is_known {
            self.reached.push(*entry)?;
        }
        Ok(())
    }

    /// Notes something of a word, if there is one.
    fn note_some(&mut self, kind: RemarkKind, at: Option<u16>) -> Result<(), AllocError> {
        match at {
            Some(at) => self.note(kind, at),
            None => Ok(()),
        }
    }

    /// Notes something of a word.
    fn note(&mut self, kind: RemarkKind, at: u16) -> Result<(), AllocError> {
        self.remarks.push(FrameRemark { at, kind })?;
        Ok(())
    }

    /// The remarks, in the order of their word addresses, each once.
    pub fn finish(self) -> Result<Vec<FrameRemark>, AllocError>
        ensures { IfOk result (λ remarks. IsStrictlySortedBy orders.cmp remarks.items) }
    {
        in_order(self.remarks)
    }
}

/// The first of these draws of a frame that has a length. One without is a dot at any scale.
fn first_shrunk(frame: &FrameOn, faint: &[u16]) -> Option<u16> {
    for at in faint {
        match instruction_at(frame, *at) {
            Some(there) if has_length(&there.instr) => return Some(*at),
            _ => {}
        }
    }
    None
}

/// Whether an entry claims that its shape lights nothing, at relative places and, since it sets no place, at others. One that sets its
/// place, or loses it, is taken to light something.
fn lights_nothing(entry: &Entry) -> bool {
    matches!((entry.lit, entry.stop), (LitBox::Empty, End::Rel { .. }))
}

/// Whether an instruction is a draw with a size other than 0.
fn has_length(instr: &Instr) -> bool {
    match instr {
        Instr::Draw(draw) => draw.dx != 0 || draw.dy != 0,
        _ => false,
    }
}
