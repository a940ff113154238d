//! Devices that count their calls, and may be slow or fail once: each counted call is one call of the device, whatever that answers.

use dvg_text::Counted;
use std::alloc::Global;
use std::io;
use std::io::{Read, Write};

/// How a device fails: at one call alone, and it works again after that.
#[derive(Clone, Copy, Debug, PartialEq, Eq)]
pub enum Fails {
    Never,
    /// That call answers an error.
    Error(u32),
    /// That call gives or takes nothing.
    Idle(u32),
}

/// A device that counts its calls, and gives or takes so many bytes a call.
#[derive(Drop)]
pub struct Device<'a> {
    /// What nobody read.
    pub rest: &'a [u8],
    pub taken: Vec<u8>,
    most: usize,
    fails: Fails,
    pub calls: u32,
    pub flushes: u32,
}

/// A device that holds these bytes.
pub fn fake(alloc: Global, rest: &[u8], most: usize, fails: Fails) -> Device<'_> {
    Device {
        rest,
        taken: Vec::new(alloc),
        most,
        fails,
        calls: 0,
        flushes: 0,
    }
}

/// A device that gives so many bytes of these a read.
pub fn slow(alloc: Global, rest: &[u8], most: usize) -> Counted<Device<'_>> {
    Counted::new(fake(alloc, rest, most, Fails::Never))
}

impl Device<'_> {
    /// Counts a call, and gives how many bytes it may go on with.
    fn call(&mut self) -> io::Result<usize> {
        let call = self.calls;
        self.calls = call.saturating_add(1);
        match self.fails {
            Fails::Error(at) if at == call => Err(io::ErrorKind::Interrupted.into()),
            Fails::Idle(at) if at == call => Ok(0),
            _ => Ok(self.most),
        }
    }
}

impl Read for Device<'_> {
    fn read(&mut self, buf: &mut [u8]) -> io::Result<usize> {
        let most = self.call()?;
        let count = self.rest.len().min(most).min(buf.len());
        let (front, rest) = self.rest.split_at(count);
        buf[..count].copy_from_slice(front);
        self.rest = rest;
        Ok(count)
    }
}

impl Write for Device<'_> {
    fn write(&mut self, buf: &[u8]) -> io::Result<usize> {
        let most = self.call()?;
        let count = buf.len().min(most);
        self.taken.extend_from_slice(&buf[..count])?;
        Ok(count)
    }

    fn flush(&mut self) -> io::Result<()> {
        self.flushes = self.flushes.saturating_add(1);
        match self.fails {
            Fails::Error(_) => Err(io::ErrorKind::Interrupted.into()),
            _ => Ok(()),
        }
    }
}
