//! Reading a label file.

ghost use Rattle.std.specs.Prelude.{◌≡◌, Some, OnOk, IfErr};
ghost use Rattle.dvg_labels.specs.Reading.{ReadsLabels, with_line, IsLineFault};

use crate::cutting::cut_line;
use crate::fault::LabelFault;
use crate::labels::Labels;
use crate::limits::MOST_BYTES;
use crate::line::read_line;
use std::alloc::Global;

/// Adds the label that the line with this number tells, if it tells one.
fn take_line(labels: &mut Labels, alloc: Global, line: u32, bytes: &[u8]) -> Result<(), LabelFault>
    ensures ok { OnOk result (with_line labels.old bytes.now ≡ Some labels.new) }
    ensures err { IfErr result (IsLineFault labels.old line bytes.now) }
{
    let Some((name, value)) = read_line(line, bytes)? else {
        return Ok(());
    };
    if labels.is_full() {
        return Err(LabelFault::TooMany { line });
    }
    match labels.add(alloc, name, value) {
        Ok(()) => Ok(()),
        Err(_) => Err(LabelFault::Memory { line }),
    }
}

/// The labels of a file with these bytes, or why it is refused. Each line is read by itself, in any of the forms (docs/LABELS.md).
#[tactic(auto, using(crate::proofs::Progress::line_read))]
pub fn read_labels(alloc: Global, text: &[u8]) -> Result<Labels, LabelFault>
    ensures { ReadsLabels text.now result }
{
    if text.len() > MOST_BYTES {
        return Err(LabelFault::TooLong);
    }
    let mut labels = Labels::new(alloc);
    let mut rest = Some(text);
    let mut line: u32 = 0;
    while let Some(bytes) = rest {
        let (first, behind) = cut_line(bytes);
        line += 1;
        take_line(&mut labels, alloc, line, first)?;
        rest = behind;
    }
    Ok(labels)
}
