//! Readers and writers that count their failures, so that a caller can tell which one failed. A writer also counts the writes
//! that took all of their piece.

ghost use Rattle.std.specs.Prelude.{◌≡◌, ℕ, true, is_err};
ghost use Rattle.std.specs.Io.{ReadsAtMost, WritesAtMost};
ghost use Rattle.std.specs.Io.KnownBytes.{ReadConsumes, WriteAppends};
ghost use Rattle.dvg_text.specs.Devices.{count_after, write_failed, took_whole};

use std::io;
use std::io::{Read, Write};
use std::marker::Model;

/// A reader that counts the failed calls of `read_counted`, up to `u32::MAX`. `Counted` doesn't count a plain `read`.
pub trait CountedRead: Read {
    /// How many calls of `read_counted` failed so far.
    ghost failures: { Self → ℕ };

    /// How many calls of `read_counted` failed so far.
    fn failures(&self) -> u32
        ensures { result ≡ failures self.now };

    /// One `read`. A failure is counted.
    fn read_counted(&mut self, buf: &mut [u8]) -> io::Result<usize>
        ensures bound { ReadsAtMost result buf.new }
        ensures bytes { ReadConsumes (Self.remaining self.old) (Self.remaining self.new) result buf.new }
        ensures count { failures self.new ≡ count_after (is_err result) (failures self.old) };
}

/// A writer that counts the calls of `write_counted` that failed, and those that took their whole piece, each up to `u32::MAX`. A
/// call fails if it answers an error, or takes no byte of a piece that has some. `Counted` doesn't count a plain `write`.
pub trait CountedWrite: Write {
    /// How many calls of `write_counted` failed so far.
    ghost failures: { Self → ℕ };

    /// How many calls of `write_counted` took their whole piece so far.
    ghost whole_writes: { Self → ℕ };

    /// How many calls of `write_counted` failed so far.
    fn failures(&self) -> u32
        ensures { result ≡ failures self.now };

    /// How many calls of `write_counted` took their whole piece so far.
    fn whole_writes(&self) -> u32
        ensures { result ≡ whole_writes self.now };

    /// One `write`. A failure is counted, and so is a write that takes its whole piece.
    fn write_counted(&mut self, buf: &[u8]) -> io::Result<usize>
        ensures bound { WritesAtMost result buf.now }
        ensures bytes { WriteAppends (Self.contents self.old) (Self.contents self.new) result buf.now }
        ensures count { failures self.new ≡ count_after (write_failed result buf.now) (failures self.old) }
        ensures whole { whole_writes self.new ≡ count_after (took_whole result buf.now) (whole_writes self.old) };
}

/// A reader or a writer, with the number of its failures and the number of writes that took their whole piece.
#[derive(Drop)]
pub struct Counted<T> {
    device: T,
    failure_count: u32,
    whole_write_count: u32,
}

impl<T> Model for Counted<T> {
    ghost use Rattle.dvg_text.specs.Devices.{CountedDevice};

    ghost Value = { CountedDevice T };

    ghost view = { λ c. record { device = c.device; failures = c.failure_count; whole_writes = c.whole_write_count } };
}

impl<T> Counted<T> {
    /// This device, with no failure and no write so far.
    pub fn new(device: T) -> Counted<T>
        ensures { result ≡ record { device = device; failures = 0; whole_writes = 0 } }
    {
        Counted {
            device,
            failure_count: 0,
            whole_write_count: 0,
        }
    }

    /// The device.
    pub fn into_inner(self) -> T
        ensures { result ≡ self.device }
    {
        self.device
    }

    fn count_failure(&mut self)
        ensures { self.new ≡ record self.old { failures = count_after true self.old.failures } }
    {
        self.failure_count = self.failure_count.saturating_add(1);
    }

    fn count_whole_write(&mut self)
        ensures { self.new ≡ record self.old { whole_writes = count_after true self.old.whole_writes } }
    {
        self.whole_write_count = self.whole_write_count.saturating_add(1);
    }
}

impl<T: Read> Read for Counted<T> {
    ghost remaining = { λ c. T.remaining c.device };

    fn read(&mut self, buf: &mut [u8]) -> io::Result<usize> {
        self.device.read(buf)
    }
}

impl<T: Read> CountedRead for Counted<T> {
    ghost failures = { λ c. c.failures };

    fn failures(&self) -> u32 {
        self.failure_count
    }

    fn read_counted(&mut self, buf: &mut [u8]) -> io::Result<usize> {
        let result = self.device.read(buf);
        if result.is_err() {
            self.count_failure();
        }
        result
    }
}

impl<T: Write> Write for Counted<T> {
    ghost contents = { λ c. T.contents c.device };

    fn write(&mut self, buf: &[u8]) -> io::Result<usize> {
        self.device.write(buf)
    }

    fn flush(&mut self) -> io::Result<()> {
        self.device.flush()
    }
}

impl<T: Write> CountedWrite for Counted<T> {
    ghost failures = { λ c. c.failures };

    ghost whole_writes = { λ c. c.whole_writes };

    fn failures(&self) -> u32 {
        self.failure_count
    }

    fn whole_writes(&self) -> u32 {
        self.whole_write_count
    }

    fn write_counted(&mut self, buf: &[u8]) -> io::Result<usize> {
        let result = self.device.write(buf);
        match &result {
            Ok(taken) if *taken == buf.len() => self.count_whole_write(),
            Ok(0) | Err(_) => self.count_failure(),
            Ok(_) => {}
        }
        result
    }
}
