//! A list of frames that a file or standard input holds, read as a stream.

use crate::escaping::shown;
use crate::input::{Input, Source};
use crate::stop::Stop;
use dvg_cmd::{Counted, NameBytes, NameEnd, NamedReader, read_name};
use std::alloc::AllocError;
use std::io::BufReader;
use std::{io, str};

/// How many bytes a name may have.
const LONGEST_NAME: usize = 4096;

fn unread(error: &io::Error) -> Stop {
    Stop::unread(error, Stop::Unreadable("dvgcheck: cannot read the list"))
}

/// A list that is read name by name.
#[derive(Drop)]
pub struct List {
    source: Counted<BufReader<Source>>,
    end: NameEnd,
    /// The first name, until its turn.
    first: Option<NameBytes>,
    fault: Option<Stop>,
}

impl List {
    /// Opens a list and reads its first name.
    pub fn open(rt: &HostRuntime, input: Input, end: NameEnd) -> Result<List, Stop> {
        let source = input
            .open(rt)
            .and_then(|file| BufReader::new(rt.alloc(), file))
            .map_err(|error| unread(&error))?;
        let mut source = Counted::new(source);
        let first = read_name(&mut source, end).map_err(|error| unread(&error))?;
        if first.is_none() {
            return Err(Stop::Misuse("dvgcheck: the list is empty"));
        }
        Ok(List {
            source,
            end,
            first,
            fault: None,
        })
    }

    /// The next frame that the list names, opened, or `None` at its end and behind a fault.
    pub fn next_frame(&mut self, rt: &HostRuntime) -> Option<NamedReader<Counted<Source>>> {
        if self.fault.is_some() {
            return None;
        }
        match self.read_frame(rt) {
            Ok(frame) => frame,
            Err(fault) => {
                self.fault = Some(fault);
                None
            }
        }
    }

    /// The fault behind which the list gave no name.
    pub fn fault(self) -> Option<Stop> {
        self.fault
    }

    fn read_frame(
        &mut self,
        rt: &HostRuntime,
    ) -> Result<Option<NamedReader<Counted<Source>>>, Stop> {
        let name = match self.first.take() {
            Some(first) => Some(first),
            None => { read_name(&mut self.source, self.end).map_err(|error| unread(&error))? }
        };
        match name {
            Some(name) => Ok(Some(frame_named(rt, name.as_slice())?)),
            None => Ok(None),
        }
    }
}

/// The path that a name of a list is, unless it is too long or not UTF-8.
fn path_of(name: &[u8]) -> Option<&str> {
    if name.len() > LONGEST_NAME {
        return None;
    }
    str::from_utf8(name).ok()
}

/// The frame that a name of a list names, opened, if its name is a path. Its line shows the first 4096 bytes of the name, with U+FFFD
/// for what is not UTF-8.
fn frame_named(rt: &HostRuntime, name: &[u8]) -> Result<NamedReader<Counted<Source>>, AllocError> {
    let file = path_of(name).and_then(|path| Input::Path(path).open(rt).ok());
    let kept = &name[..name.len().min(LONGEST_NAME)];
    let text = String::from_utf8_lossy(rt.alloc(), kept)?;
    Ok(NamedReader {
        name: shown(rt.alloc(), text.as_str())?,
        reader: file.map(Counted::new),
    })
}
