//! What a run writes behind the line of a frame: an account of its answer, or the remarks on an accepted frame.

ghost use Rattle.std.specs.Prelude.{◌≡◌};
ghost use Rattle.dvg_cmd.specs.Remarking.{AreRemarks, answer_detail, outcome_behind_frame, text_behind_frame};

use crate::called::Called;
use crate::detail::{Behind, Detail, behind_text, outcome_behind};
use crate::frame_judge::OwnCertificates;
use dvg_account::{FrameRemark, Inputs, frame_remarks, remarks_text};
use dvg_cert::Cert;
use dvg_check::Mode;
use dvg_labels::Labels;
use dvg_spelling::Outcome;
use std::alloc::{AllocError, Global};

/// What a run writes behind the line of a frame.
#[derive(Clone, Copy)]
pub enum FrameDetail<'a> {
    /// What the detail asks for, of any answer.
    Answer(Detail<'a>),
    /// The remarks on an accepted frame, each as a line. If there is no memory for them, the run writes `remarks: out of memory` in their
    /// place, and its outcome says so.
    Remarks(&'a Remarking<'a>),
}

impl<'a> FrameDetail<'a> {
    /// What is asked of the judge of the frame.
    pub fn of_answer(self) -> Detail<'a>
        ensures { result ≡ answer_detail self.entry }
    {
        match self {
            FrameDetail::Answer(detail) => detail,
            FrameDetail::Remarks(_) => Detail::Line,
        }
    }
}

/// How remarks on accepted frames are found.
#[derive(Clone, Copy)]
pub struct Remarking<'a> {
    /// How a certificate is made for a frame: the remarks speak of its shapes.
    pub own: OwnCertificates<'a>,
    /// The labels by which remarks name addresses, if there are any.
    pub labels: Option<&'a Labels>,
}

/// The remarks on a frame.
#[derive(Drop)]
pub struct FrameRemarks {
    pub found: Vec<FrameRemark>,
    /// Their lines.
    pub text: String,
}

/// What is written behind the line of a frame.
#[derive(Drop)]
pub enum BehindFrame {
    /// The account of the answer, if one is asked for; that of a refusal because of an item that calls a shape, with this shape.
    Answer(Behind, Option<Called>),
    /// The remarks, or that there was no memory for them.
    Remarks(Result<FrameRemarks, AllocError>),
}

/// What is written in the place of remarks for which there was no memory.
const NO_REMARKS: &str = "remarks: out of memory\n";

impl BehindFrame {
    /// The text.
    pub fn text(&self) -> &str
        ensures { result.now ≡ text_behind_frame self.now }
    {
        match self {
            BehindFrame::Answer(behind, _) => behind_text(behind),
            BehindFrame::Remarks(Ok(remarks)) => remarks.text.as_str(),
            BehindFrame::Remarks(Err(_)) => NO_REMARKS,
        }
    }

    /// The outcome of a frame's line and of this text behind it.
    pub fn outcome_with(&self, line: Outcome) -> Outcome
        ensures { result ≡ outcome_behind_frame self.now line }
    {
        match self {
            BehindFrame::Answer(behind, _) => outcome_behind(behind, line),
            BehindFrame::Remarks(Ok(_)) => line,
            BehindFrame::Remarks(Err(_)) => line.or_worse(Outcome::NoMemory),
        }
    }
}

impl<'a> Remarking<'a> {
    /// The remarks on a frame of this name that was accepted, or that there was no memory for them. There is none on a frame for which no
    /// certificate can be made.
    pub fn on(&self, alloc: Global, name: &str, frame: &[u8]) -> BehindFrame
        ensures { AreRemarks result }
    {
        BehindFrame::Remarks(self.find(alloc, name, frame))
    }

    fn find(&self, alloc: Global, name: &str, frame: &[u8]) -> Result<FrameRemarks, AllocError> {
        let found = match self.own.made_for(alloc, frame)? {
            Some(cert) => remarks_by(alloc, &self.own, &cert, frame, self.labels)?,
            None => Vec::new(alloc),
        };
        let text = remarks_text(alloc, name, found.as_slice(), self.labels)?;
        Ok(FrameRemarks { found, text })
    }
}

/// The remarks on a frame by the certificate that is made for it so.
fn remarks_by<'a>(
    alloc: Global,
    own: &OwnCertificates<'a>,
    cert: &'a Cert,
    frame: &'a [u8],
    labels: Option<&'a Labels>,
) -> Result<Vec<FrameRemark>, AllocError> {
    let inputs = Inputs {
        machine: own.machine,
        rom: own.rom,
        map: Some(own.map),
        cert: Some(cert),
        frame,
        budget: own.budget,
        window: own.window,
        mode: Mode::Exact,
        labels,
        others: own.others,
    };
    match own.images(frame) {
        Ok((image, rom)) => frame_remarks(alloc, &inputs, &rom, &image),
        Err(_) => Ok(Vec::new(alloc)),
    }
}
