//! Each LABS of a list or of a shape that has no effect on what is lit.

use crate::remarked::FrameRemark;
use dvg_items::Item;
use dvg_spelling::RemarkKind;
use dvg_words::Instr;

/// What is remarked of the last LABS of the items that were gone over, if the next item is another one.
#[derive(Clone, Copy)]
pub struct LabsWatch {
    remark: Option<FrameRemark>,
}

impl LabsWatch {
    /// Before the first item.
    pub fn new() -> LabsWatch {
        LabsWatch { remark: None }
    }

    /// Goes over the next item, and answers what is remarked of the last LABS if this is another one. Nothing is remarked of a LABS
    /// behind which only dark draws come before the end: many games put the beam somewhere last. A call of what lights nothing counts
    /// as if it lit something: games write blanks, such as digits that are not shown.
    pub fn pass(&mut self, item: &Item) -> Option<FrameRemark> {
        match item.instr {
            Instr::Labs { .. } => {
                let kind = RemarkKind::IdleLabs;
                return self.remark.replace(FrameRemark { at: item.at, kind });
            }
            Instr::Draw(draw) if draw.bright == 0 => {
                if let Some(remark) = &mut self.remark {
                    remark.kind = RemarkKind::NothingLit;
                }
            }
            Instr::Draw(_) | Instr::Jsrl { .. } => self.remark = None,
            Instr::Halt | Instr::Rtsl | Instr::Jmpl { .. } => {}
        }
        None
    }
}
