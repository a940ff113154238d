//! Counted calls of devices that fail.

use crate::devices::{Device, Fails, fake};
use crate::expecting::{expect, expect_same};
use crate::inputs::{EMPTY, STROKE_CERT};
use dvg_cert::*;
use dvg_text::*;
use std::alloc::Global;
use std::io::{Read, Write};
use std::process::Abort;

/// What a call answered, the failures that were counted, and the calls of the device.
type Told = (Option<usize>, u32, u32);

/// Reads so often by a buffer of four bytes, and tells of the last read.
fn read_told(alloc: Global, rest: &[u8], most: usize, fails: Fails, reads: u32) -> Told {
    let mut reader = Counted::new(fake(alloc, rest, most, fails));
    let mut buf = [0; 4];
    let mut last = None;
    for _ in 0..reads {
        last = reader.read_counted(&mut buf).ok();
    }
    let failures = CountedRead::failures(&reader);
    (last, failures, reader.into_inner().calls)
}

/// How many bytes are given a read, how reads fail, how many reads there are of `dvgcert`, and what is told of the last one.
const READS: &[(usize, Fails, u32, Told)] = &[
    (9, Fails::Never, 1, (Some(4), 0, 1)),
    (1, Fails::Never, 1, (Some(1), 0, 1)),
    (9, Fails::Never, 2, (Some(3), 0, 2)),
    // At the end of the input.
    (9, Fails::Never, 3, (Some(0), 0, 3)),
    // The failed call, and the one after it.
    (9, Fails::Error(0), 1, (None, 1, 1)),
    (9, Fails::Error(0), 2, (Some(4), 1, 2)),
    (1, Fails::Error(1), 2, (None, 1, 2)),
    (1, Fails::Error(1), 3, (Some(1), 1, 3)),
];

#[test]
fn counted_reads_call_once(rt: HostRuntime) {
    for &(most, fails, reads, want) in READS {
        let told = read_told(rt.alloc(), b"dvgcert", most, fails, reads);
        expect_same(&rt, &told, &want, &(most, fails, reads));
    }
    let told = read_told(rt.alloc(), b"", 9, Fails::Never, 1);
    expect_same(&rt, &told, &(Some(0), 0, 1), &"an empty input");
}

/// Writes four bytes so often, and tells of the last write.
fn write_told(alloc: Global, most: usize, fails: Fails, writes: u32) -> Told {
    let mut writer = Counted::new(fake(alloc, b"", most, fails));
    let mut last = None;
    for _ in 0..writes {
        last = writer.write_counted(b"done").ok();
    }
    let failures = CountedWrite::failures(&writer);
    (last, failures, writer.into_inner().calls)
}

/// How many bytes are taken a write, how writes fail, how many writes there are, and what is told of the last one.
const WRITES: &[(usize, Fails, u32, Told)] = &[
    (9, Fails::Never, 1, (Some(4), 0, 1)),
    (1, Fails::Never, 2, (Some(1), 0, 2)),
    (9, Fails::Error(0), 1, (None, 1, 1)),
    (9, Fails::Error(0), 2, (Some(4), 1, 2)),
    (1, Fails::Error(1), 3, (Some(1), 1, 3)),
    (9, Fails::Idle(0), 1, (Some(0), 1, 1)),
    (9, Fails::Idle(0), 2, (Some(4), 1, 2)),
];

#[test]
fn counted_writes_call_once(rt: HostRuntime) {
    for &(most, fails, writes, want) in WRITES {
        let told = write_told(rt.alloc(), most, fails, writes);
        expect_same(&rt, &told, &want, &(most, fails, writes));
    }
}

/// Whether a read into a buffer is answered as an empty device does.
fn reads_none(reader: &mut Counted<Device>, buf: &mut [u8]) -> bool {
    matches!(reader.read_counted(buf), Ok(0))
}

/// Whether a write is answered as a device does that takes a byte.
fn writes_one(writer: &mut Counted<Device>, buf: &[u8]) -> bool {
    match writer.write_counted(buf) {
        Ok(taken) => taken == buf.len().min(1),
        Err(_) => false,
    }
}

/// Buffers and pieces of any size reach the device.
#[test]
fn counted_reads_of_any_size(rt: HostRuntime) {
    let mut reader = Counted::new(fake(rt.alloc(), b"", 0, Fails::Never));
    let mut buf = [0; 4200];
    for len in 0..4200 {
        expect(&rt, reads_none(&mut reader, &mut buf[..len]), &len);
    }
    let mut long = vec![in rt.alloc(); 0u8; 1_048_577].expect(&rt, "memory");
    expect(&rt, reads_none(&mut reader, &mut long), &"a long one");
    assert_eq!(rt; reader.into_inner().calls, 4201);
}

#[test]
fn counted_writes_of_any_size(rt: HostRuntime) {
    let mut writer = Counted::new(fake(rt.alloc(), b"", 1, Fails::Never));
    let long = vec![in rt.alloc(); 0u8; 1_048_577].expect(&rt, "memory");
    for len in 0..4200 {
        let piece = long.get(..len).unwrap_or(&[]);
        expect(&rt, writes_one(&mut writer, piece), &len);
    }
    expect(&rt, writes_one(&mut writer, &long), &"a long one");
    assert_eq!(rt; writer.into_inner().calls, 4201);
}

/// Whether a plain read was done, the failures that were counted, and the calls of the device.
fn plain_read(alloc: Global, fails: Fails) -> (bool, u32, u32) {
    let mut reader = Counted::new(fake(alloc, b"dvgcert", 9, fails));
    let is_done = reader.read(&mut [0; 4]).is_ok();
    let failures = CountedRead::failures(&reader);
    (is_done, failures, reader.into_inner().calls)
}

/// Whether a plain write and a flush were done, the failures that were counted, and the calls and flushes of the device.
fn plain_write(alloc: Global, fails: Fails) -> ([bool; 2], u32, [u32; 2]) {
    let mut writer = Counted::new(fake(alloc, b"", 9, fails));
    let is_written = writer.write(b"done").is_ok();
    let is_flushed = writer.flush().is_ok();
    let failures = CountedWrite::failures(&writer);
    let device = writer.into_inner();
    let calls = [device.calls, device.flushes];
    ([is_written, is_flushed], failures, calls)
}

/// A plain read, write or flush is the device's, and is not counted.
#[test]
fn plain_calls_are_the_devices(rt: HostRuntime) {
    for &(fails, is_done) in [(Fails::Never, true), (Fails::Error(0), false)].as_slice() {
        expect_same(
            &rt,
            &plain_read(rt.alloc(), fails),
            &(is_done, 0, 1),
            &fails,
        );
        let written = plain_write(rt.alloc(), fails);
        expect_same(&rt, &written, &([is_done; 2], 0, [1; 2]), &fails);
    }
}

/// What is told of a text or a certificate that is written: whether all was sent, the failures that were counted, and the calls of
/// the device.
type Sent = (bool, u32, u32);

/// Stops the test unless a sending to a device ended like this, with just the first `len` bytes of a text taken.
fn expect_sent(
    rt: &impl Abort,
    out: Counted<Device>,
    is_sent: bool,
    sent: Sent,
    (text, len): (&[u8], usize),
) {
    let failures = CountedWrite::failures(&out);
    let device = out.into_inner();
    expect_same(rt, &(is_sent, failures, device.calls), &sent, &len);
    let is_prefix = text.get(..len) == Some(device.taken.as_slice());
    expect(rt, is_prefix, &(sent, len));
}

/// How many bytes are taken a write, how writes fail, what is told, and how many bytes are taken.
const SENDINGS: &[(usize, Fails, Sent, usize)] = &[
    (1, Fails::Never, (true, 0, 17), 17),
    (7, Fails::Never, (true, 0, 3), 17),
    (99, Fails::Never, (true, 0, 1), 17),
    (99, Fails::Error(0), (false, 1, 1), 0),
    (7, Fails::Error(1), (false, 1, 2), 7),
    (7, Fails::Error(2), (false, 1, 3), 14),
    (99, Fails::Idle(0), (false, 1, 1), 0),
    (7, Fails::Idle(1), (false, 1, 2), 7),
    (0, Fails::Never, (false, 1, 1), 0),
];

/// What is sent of this text, and nothing again where a write failed, though the device would take it.
#[test]
fn sends_bytes_once(rt: HostRuntime) {
    for &(most, fails, sent, len) in SENDINGS {
        let mut out = Counted::new(fake(rt.alloc(), b"", most, fails));
        let is_sent = write_bytes(EMPTY, &mut out).is_ok();
        expect_sent(&rt, out, is_sent, sent, (EMPTY, len));
    }
}

/// Stops the test unless writing a certificate to a device ends like this, with just the first `len` bytes of its text taken.
fn expect_written(
    rt: &impl Abort,
    cert: &Cert,
    device: Device,
    sent: Sent,
    (text, len): (&[u8], usize),
) {
    let mut out = Counted::new(device);
    let is_sent = write_cert(cert, &mut out).is_ok();
    expect_sent(rt, out, is_sent, sent, (text, len));
}

/// A certificate of one entry is written byte by byte, up to the one byte that fails.
#[test]
fn sends_a_certificate_once(rt: HostRuntime) {
    let cert = read_cert(rt.alloc(), STROKE_CERT).expect(&rt, "a certificate");
    let len = STROKE_CERT.len() as u32;
    for at in 0..=len {
        let sent = if at == len {
            (true, 0, at)
        } else {
            (false, 1, at.saturating_add(1))
        };
        for fails in [Fails::Error(at), Fails::Idle(at)] {
            let device = fake(rt.alloc(), b"", 1, fails);
            expect_written(&rt, &cert, device, sent, (STROKE_CERT, at as usize));
        }
    }
}

/// The text of 4096 entries for words of RTSL: all 16 scales of 800 to 8FF.
fn text_of_returns(rt: &impl Abort, alloc: Global) -> String {
    let mut text = String::new(alloc);
    text.push_str("dvgcert 1\n").expect(rt, "memory");
    for index in 0..4096u32 {
        let (addr, scale) = (0x800 + index / 16, index % 16);
        let line = format!(in alloc;
            "shape {addr:03X} {scale} end rel 0 0 box none depth 0 words 1 scale {scale}\n"
        );
        text.push_str(&line.expect(rt, "memory"))
            .expect(rt, "memory");
    }
    text.push_str("done 4096\n").expect(rt, "memory");
    text
}

/// How many bytes the first so many lines of a text have that has as many.
fn heading(text: &[u8], most: usize) -> usize {
    let mut lines = 0usize;
    for i in 0..text.len() {
        if lines == most {
            return i;
        }
        lines = lines.saturating_add(usize::from(text[i] == b'\n'));
    }
    text.len()
}

/// How many bytes are taken a write of a certificate of 4096 entries, and how many calls that takes.
const WHOLE_WRITES: &[(usize, u32)] = &[(1, 236_564), (7, 33_825), (4096, 61)];

/// A certificate of 4096 entries takes 61 writes. Each is of 68 lines of entries, but for the last, of 16: 67 of these lines have
/// 3873 bytes at most, and 68 have 3924 at least, after which another of 200 may not fit 4096. The first has the first line, too.
/// Where one of them fails, just the lines of those before it stand.
#[test]
fn sends_many_lines_a_write(rt: HostRuntime) {
    let text = text_of_returns(&rt, rt.alloc());
    let text = text.as_bytes();
    let cert = read_cert(rt.alloc(), text).expect(&rt, "a certificate");
    for &(most, calls) in WHOLE_WRITES {
        let device = fake(rt.alloc(), b"", most, Fails::Never);
        expect_written(&rt, &cert, device, (true, 0, calls), (text, text.len()));
    }
    for at in 0..61u32 {
        let lines = if at == 0 { 0 } else { 68 * at as usize + 1 };
        let len = heading(text, lines);
        for fails in [Fails::Error(at), Fails::Idle(at)] {
            let device = fake(rt.alloc(), b"", 4096, fails);
            expect_written(&rt, &cert, device, (false, 1, at + 1), (text, len));
        }
    }
}
