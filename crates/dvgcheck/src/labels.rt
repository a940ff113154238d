//! The file of labels.

use crate::input::Input;
use crate::stop::Stop;
use dvg_cmd::{LabelFault, Labels, MOST_LABEL_BYTES, read_labels};
use std::alloc::{AllocError, Global};
use std::io;
use std::io::Read;

/// Reads the labels of a file, to its end or to one byte past its limit.
pub fn load_labels(rt: &HostRuntime, input: Input) -> Result<Labels, Stop> {
    let bytes = read_bytes(rt, input).map_err(|error| Stop::unread(
        &error,
        Stop::Unreadable("dvgcheck: cannot read the labels"),
    ))?;
    match read_labels(rt.alloc(), bytes.as_slice()) {
        Ok(labels) => Ok(labels),
        Err(fault) => Err(Stop::saying(message_of(rt.alloc(), fault))),
    }
}

fn read_bytes(rt: &HostRuntime, input: Input) -> io::Result<Vec<u8>> {
    let mut file = input.open(rt)?.take(MOST_LABEL_BYTES as u64 + 1);
    let mut bytes = Vec::new(rt.alloc());
    file.read_to_end(&mut bytes)?;
    Ok(bytes)
}

/// The line on standard error about labels with this fault, without its LF.
fn message_of(alloc: Global, fault: LabelFault) -> Result<String, AllocError> {
    match fault {
        LabelFault::TooLong => {
            format!(in alloc; "dvgcheck: bad labels: over {MOST_LABEL_BYTES} bytes")
        }
        LabelFault::Form { line } => {
            format!(in alloc; "dvgcheck: bad labels: line {line} has none of the forms of labels")
        }
        LabelFault::TooMany { line } => {
            format!(in alloc; "dvgcheck: bad labels: line {line} has the 65537th label")
        }
        LabelFault::Memory { .. } => Err(AllocError),
    }
}
