//! What the author of an accepted frame may not have meant, by the kind and the word address. It changes no answer.

ghost use Rattle.std.specs.Prelude.{IfOk};
ghost use Rattle.std.specs.List.Sorted.{IsStrictlySortedBy};
ghost use Rattle.dvg_account.specs.contracts.remarked.FrameRemarkOrd.TheImpl.{ghosts as orders};

use crate::finder::Finder;
use crate::inputs::Inputs;
use crate::text::Text;
use dvg_cert::HashIndex;
use dvg_labels::Labels;
use dvg_spelling::RemarkKind;
use dvg_survey::survey_frame;
use dvg_words::{FrameImage, FrameOn, RomImage};
use std::alloc::{AllocError, Global};

/// Something in an accepted frame that its author may not have meant, and the word address where it is.
#[derive(Clone, Copy, Debug, PartialEq, Eq, PartialOrd, Ord)]
pub struct FrameRemark {
    pub at: u16,
    pub kind: RemarkKind,
}

/// The remarks on an accepted frame, by the certificate of these inputs; none without one. The ROM and the frame are those of the inputs.
/// They are in the order of their word addresses, those at one address in the order of the kinds, each once.
pub fn frame_remarks(
    alloc: Global,
    inputs: &Inputs,
    rom: &RomImage,
    frame: &FrameImage,
) -> Result<Vec<FrameRemark>, AllocError>
    ensures { IfOk result (λ remarks. IsStrictlySortedBy orders.cmp remarks.items) }
{
    let Some(cert) = inputs.cert else {
        return Ok(Vec::new(alloc));
    };
    let entries = HashIndex::new(alloc, cert)?;
    let survey = survey_frame(rom.machine(), alloc, cert, &entries, frame)?;
    let mut finder = Finder::new(alloc, inputs, cert, entries, rom)?;
    finder.find_in_frame(alloc, &FrameOn::new(rom.machine(), frame), &survey)?;
    finder.find_in_shapes()?;
    finder.finish()
}

/// Values in their order, each once.
pub fn in_order<T: Ord + Drop>(mut values: Vec<T>) -> Result<Vec<T>, AllocError>
    ensures { IfOk result (λ sorted. IsStrictlySortedBy T.cmp sorted.items) }
{
    values.sort()?;
    values.dedup();
    Ok(values)
}

/// The lines of remarks on the frame with this name, in which labels name word addresses: `game.frame: remark runs-on 819 SHIP+3`.
pub fn remarks_text(
    alloc: Global,
    name: &str,
    remarks: &[FrameRemark],
    labels: Option<&Labels>,
) -> Result<String, AllocError> {
    let mut text = Text::new(alloc, labels);
    for remark in remarks {
        text.push(name);
        text.push(": remark ");
        text.push(remark.kind.word());
        text.push(" ");
        text.push_hex_address(remark.at);
        text.push_label_behind(remark.at);
        text.push("\n");
    }
    text.finish()
}
