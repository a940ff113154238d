//! Frames that are the records of files, read record by record.

use crate::command::Named;
use crate::input::{Kept, Source, kept_frame};
use crate::stop::Stop;
use dvg_cmd::{Counted, NamedReader, Record, RecordLength, read_record, record_name};
use std::alloc::{AllocError, Global};
use std::vec::IntoIter;

/// An open file of records.
#[derive(Drop)]
struct Recording {
    name: String,
    source: Counted<Source>,
    /// The number of its next record.
    next: u64,
}

/// Files of records, which are read record by record, one file after another.
#[derive(Drop)]
pub struct Records<'a> {
    /// Those that are not yet open.
    files: IntoIter<Named<'a>>,
    length: RecordLength,
    current: Option<Recording>,
    fault: Option<Stop>,
}

impl<'a> Records<'a> {
    /// The records of these files, none of them read.
    pub fn new(files: Vec<Named<'a>>, length: RecordLength) -> Records<'a> {
        Records {
            files: files.into_iter(),
            length,
            current: None,
            fault: None,
        }
    }

    /// One step further: opens the next file, or reads the next record; the frame with which it came, if there is one. `None` behind
    /// the last record, and where memory is out.
    pub fn step(&mut self, rt: &HostRuntime) -> Option<Option<NamedReader<Kept>>> {
        let stepped = match self.current.take() {
            Some(recording) => self.read(rt.alloc(), recording),
            None => {
                let file = self.files.next()?;
                self.open(rt, file)
            }
        };
        match stepped {
            Ok(frame) => Some(frame),
            Err(error) => {
                self.fault = Some(error.into());
                None
            }
        }
    }

    /// The last fault that was met.
    pub fn fault(self) -> Option<Stop> {
        self.fault
    }

    /// Opens a file. If it can't be opened, its first record can't be read.
    fn open(
        &mut self,
        rt: &HostRuntime,
        file: Named,
    ) -> Result<Option<NamedReader<Kept>>, AllocError> {
        let Named { input, name } = file;
        let Ok(source) = input.open(rt) else {
            return Ok(Some(frame_of(rt.alloc(), name.as_str(), 1, None)?));
        };
        self.current = Some(Recording {
            name,
            source: Counted::new(source),
            next: 1,
        });
        Ok(None)
    }

    /// Reads the next record of a file, which stays open if it is whole.
    fn read(
        &mut self,
        alloc: Global,
        mut recording: Recording,
    ) -> Result<Option<NamedReader<Kept>>, AllocError> {
        let number = recording.next;
        match read_record(alloc, &mut recording.source, self.length)? {
            Record::Whole(bytes) => {
                let frame = frame_of(alloc, recording.name.as_str(), number, Some(bytes))?;
                recording.next = number.saturating_add(1);
                self.current = Some(recording);
                Ok(Some(frame))
            }
            Record::Cut => Ok(Some(frame_of(alloc, recording.name.as_str(), number, None)?)),
            Record::End => {
                if number == 1 {
                    self.fault = Some(Stop::Misuse("dvgcheck: no record"));
                }
                Ok(None)
            }
        }
    }
}

/// The record with this number of a file, as a frame: the bytes that were read of it, or that it can't be read.
fn frame_of(
    alloc: Global,
    file: &str,
    number: u64,
    bytes: Option<Vec<u8>>,
) -> Result<NamedReader<Kept>, AllocError> {
    Ok(kept_frame(record_name(alloc, file, number)?, bytes))
}
