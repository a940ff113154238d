//! Frames that are explained together: what the one calls is known to the account of the other.

use crate::command::Named;
use crate::input::{Input, Kept, kept_frame};
use dvg_cmd::{Counted, FRAME_READ, NamedReader, OwnCertificates, ShapeStarts, read_started};
use std::alloc::AllocError;

/// The bytes of a frame, up to one past their limit, with the jump to its start in place of word 000, if one is given. `None` if it can't
/// be opened or read.
fn read_frame(
    rt: &HostRuntime,
    input: Input,
    start: Option<u16>,
) -> Result<Option<Vec<u8>>, AllocError> {
    let mut buffer = [0; FRAME_READ];
    let read = input.open(rt).and_then(|file| read_started(
        &mut Counted::new(file),
        start,
        &mut buffer,
    ));
    let Ok(len) = read else {
        return Ok(None);
    };
    let mut bytes = Vec::new(rt.alloc());
    bytes.extend_from_slice(&buffer[..len])?;
    Ok(Some(bytes))
}

/// Reads these frames, each file opened when the one before it is closed, and adds where the shapes begin that they call. They can be read
/// again from what is kept of them.
pub fn read_frames(
    rt: &HostRuntime,
    frames: Vec<Named>,
    start: Option<u16>,
    judge: &OwnCertificates,
    starts: &mut ShapeStarts,
) -> Result<Vec<NamedReader<Kept>>, AllocError> {
    let mut kept = Vec::new(rt.alloc());
    for frame in frames {
        let Named { input, name } = frame;
        let bytes = read_frame(rt, input, start)?;
        if let Some(bytes) = &bytes {
            judge.add_starts(rt.alloc(), bytes.as_slice(), starts)?;
        }
        kept.push(kept_frame(name, bytes))?;
    }
    Ok(kept)
}
