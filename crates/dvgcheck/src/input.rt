//! The files that a run reads.

use dvg_cmd::{Counted, NamedReader};
use std::fs::File;
use std::io::{Cursor, Read, Stdin};
use std::os::fd::AsFd;
use std::{fs, io};

/// What a word of the command line names as a file to read.
#[derive(Clone, Copy)]
pub enum Input<'a> {
    /// The file at this path.
    Path(&'a str),
    /// Standard input, which `-` names.
    Standard,
    /// `-`, though standard input was closed when the program began.
    Closed,
}

impl<'a> Input<'a> {
    /// What this word names. To be called before a file is opened, since the first of them gets the number of a closed standard
    /// input.
    pub fn named(rt: &HostRuntime, word: &'a str) -> Input<'a> {
        if word != "-" {
            return Input::Path(word);
        }
        match rt.stdin().as_fd().try_clone_to_owned() {
            Ok(_) => Input::Standard,
            Err(_) => Input::Closed,
        }
    }

    /// Opens the file.
    pub fn open(self, rt: &HostRuntime) -> io::Result<Source> {
        match self {
            Input::Path(path) => Ok(Source::File(fs::open(rt, path)?)),
            Input::Standard => Ok(Source::Standard(rt.stdin())),
            Input::Closed => Err(io::Error::from(io::ErrorKind::NotFound)),
        }
    }
}

/// Whether a file could not be read because there was no memory for it.
pub fn is_no_memory(error: &io::Error) -> bool {
    error.kind() == io::ErrorKind::OutOfMemory
}

/// An open file that is read.
#[derive(Drop)]
pub enum Source {
    File(File),
    Standard(Stdin),
}

impl Read for Source {
    fn read(&mut self, buf: &mut [u8]) -> io::Result<usize> {
        match self {
            Source::File(file) => file.read(buf),
            Source::Standard(stdin) => stdin.read(buf),
        }
    }
}

/// A reader of bytes that were read before.
pub type Kept = Counted<Cursor<Vec<u8>>>;

/// The frame with this name: the bytes that were read of it, or that it can't be opened or read.
pub fn kept_frame(name: String, bytes: Option<Vec<u8>>) -> NamedReader<Kept> {
    NamedReader {
        name,
        reader: bytes.map(|bytes| Counted::new(Cursor::new(bytes))),
    }
}
