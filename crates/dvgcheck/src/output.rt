//! The file that a certificate is written to.

use crate::input::is_no_memory;
use dvg_cmd::{Counted, WriteFault};
use std::alloc::AllocError;
use std::fs::File;
use std::io::ErrorKind;
use std::path::{Path, PathBuf};
use std::{fs, io};

/// A file that is being written, and what becomes of it at the end.
#[derive(Drop)]
pub struct Output {
    file: File,
    draft: Option<Draft>,
}

/// Where a file is written that is to take another's place.
#[derive(Drop)]
struct Draft {
    path: PathBuf,
    /// What the file is called once it is whole.
    place: PathBuf,
}

/// How many names for drafts there are in a folder, and so how many runs may write there at once.
const DRAFT_NAMES: u32 = 1000;

impl Output {
    /// Opens what is written in the end at this path: a draft in the same folder, where a regular file or none stands at the
    /// path, else the path's own file. A draft has the permissions of the file whose place it is to take; one that may not be
    /// written is a fault.
    pub fn open(rt: &HostRuntime, path: &str) -> io::Result<Output> {
        let file = match File::options().write(true).open(rt, path) {
            Ok(file) => file,
            Err(error) if error.kind() == ErrorKind::NotFound => {
                return Output::draft(rt, PathBuf::from_str(rt.alloc(), path)?);
            }
            Err(error) => return Err(error),
        };
        let metadata = file.metadata()?;
        if !metadata.is_file() {
            return Ok(Output { file, draft: None });
        }
        let output = Output::draft(rt, fs::canonicalize(rt, path)?)?;
        match output.file.set_permissions(metadata.permissions()) {
            Ok(()) => Ok(output),
            Err(error) => {
                output.discard(rt);
                Err(error)
            }
        }
    }

    /// A new file in the folder of this place, for it.
    fn draft(rt: &HostRuntime, place: PathBuf) -> io::Result<Output> {
        for number in 0..DRAFT_NAMES {
            let name = format!(in rt.alloc(); ".dvgcheck-{number}")?;
            let path = Path::new(place.as_str()).with_file_name(rt.alloc(), name.as_str())?;
            match File::create_new(rt, path.as_str()) {
                Ok(file) => {
                    return Ok(Output {
                        file,
                        draft: Some(Draft { path, place }),
                    });
                }
                Err(error) if error.kind() == ErrorKind::AlreadyExists => {}
                Err(error) => return Err(error),
            }
        }
        Err(io::Error::from(ErrorKind::AlreadyExists))
    }

    /// The file, to be written.
    pub fn counted(&self) -> Counted<&File> {
        Counted::new(&self.file)
    }

    /// Ends the writing. A draft of a whole file is brought to the disk and takes its place; where that fails, or the file is not whole,
    /// the draft is removed.
    pub fn end(self, rt: &HostRuntime, is_whole: bool) -> io::Result<()> {
        let kept = if is_whole {
            self.put_in_place(rt)
        } else {
            Ok(())
        };
        if !is_whole || kept.is_err() {
            self.discard(rt);
        }
        kept
    }

    fn put_in_place(&self, rt: &HostRuntime) -> io::Result<()> {
        let Some(draft) = &self.draft else {
            return Ok(());
        };
        self.file.sync_all()?;
        fs::rename(rt, draft.path.as_str(), draft.place.as_str())
    }

    /// Removes a draft.
    fn discard(self, rt: &HostRuntime) {
        if let Some(draft) = &self.draft {
            let _ = fs::remove_file(rt, draft.path.as_str());
        }
    }
}

/// The fault of a file that could not be written.
pub fn unwritten<F: From<AllocError> + From<WriteFault>>(error: &io::Error) -> F {
    if is_no_memory(error) {
        F::from(AllocError)
    } else {
        F::from(WriteFault::Device)
    }
}
