//! Inputs that several modules use: words of a text, and the shape of one lit stroke, its certificate and a frame that calls it.

use std::alloc::Global;
use std::process::Abort;

/// The certificate without entries.
pub const EMPTY: &[u8] = b"dvgcert 1\ndone 0\n";

/// The certificate of one lit stroke at 800.
pub const STROKE_CERT: &[u8] =
    b"dvgcert 1\nshape 800 0 end rel 1047552 785408 box 0 1047552 0 785408 depth 0 words 3 scale 0\ndone 1\n";

/// A frame that sets the place 0, 128 at global scale 0, and calls the stroke.
pub const STROKE_FRAME: &[u8] = &[0x80, 0xA0, 0x00, 0x00, 0x00, 0xC8, 0xB0, 0xB0];

/// The words of the stroke by 1023, 767, and RTSL.
pub const STROKE: &str = "800 92FF 73FF D000";

/// The number of a word, or of a word address.
pub fn hex(rt: &impl Abort, word: &str) -> u16 {
    u16::from_str_radix(word, 16).expect(rt, "a word in hexadecimal")
}

/// Appends words that stand between commas, the low byte of each first.
fn push_words(rt: &impl Abort, bytes: &mut Vec<u8>, words: &str) {
    for word in words.split(',') {
        let pair = hex(rt, word).to_le_bytes();
        let spelled = if word.len() == 2 { 1 } else { 2 };
        bytes
            .extend_from_slice(&pair[..spelled])
            .expect(rt, "memory");
    }
}

/// The words of a text as bytes. `CBFF*3` is a word three times, `9000,03FF*3` two words three times, and `CB` a byte alone.
pub fn bytes_of(rt: &impl Abort, alloc: Global, words: &str) -> Vec<u8> {
    let mut bytes = Vec::new(alloc);
    for words in words.split_whitespace() {
        let (words, times) = words.split_once('*').unwrap_or((words, "1"));
        for _ in 0..times.parse::<u16>().expect(rt, "a count") {
            push_words(rt, &mut bytes, words);
        }
    }
    bytes
}

/// Writes bytes from an index on, over those that stand there, or behind as many zeros as there have to be.
fn write_at(rt: &impl Abort, bytes: &mut Vec<u8>, first: usize, written: &[u8]) {
    let end = first.saturating_add(written.len());
    if bytes.len() < end {
        bytes.resize(end, 0).expect(rt, "memory");
    }
    let mut at = first;
    for byte in written {
        if let Some(place) = bytes.get_mut(at) {
            *place = *byte;
        }
        at = at.saturating_add(1);
    }
}

/// The bytes from a word address up to the last word of a text, of zeros but for its words. They stand in parts, each behind the address of
/// its first word, on lines or between commas; and a line may say behind ` ; ` what it shows.
pub fn bytes_from(rt: &impl Abort, alloc: Global, first: u16, text: &str) -> Vec<u8> {
    let mut bytes = Vec::new(alloc);
    for line in text.lines() {
        let (parts, _) = line.split_once(" ; ").unwrap_or((line, ""));
        for part in parts.split(", ") {
            let (at, words) = part.split_once(' ').unwrap_or((part, ""));
            let at = 2 * usize::from(hex(rt, at).saturating_sub(first));
            write_at(rt, &mut bytes, at, &bytes_of(rt, alloc, words));
        }
    }
    bytes
}

/// The bytes of a ROM at 800 to BFF, of zeros but for the words of a text.
pub fn rom_of(rt: &impl Abort, alloc: Global, text: &str) -> Vec<u8> {
    let mut bytes = bytes_from(rt, alloc, 0x800, text);
    bytes.resize(2048, 0).expect(rt, "memory");
    bytes
}
