//! A text of entries with numbers of many lengths, to be read.

ghost use Rattle.std.specs.Prelude.{◌<◌, ◌≤◌, pos, ◌≤ℤ◌, ◌<ℤ◌};

use anyhow::{Result, bail};
use dvg_cert::{Cert, End, Entry, Key, LitBox, MOST_ENTRIES};
use dvg_text::{Counted, read_cert, write_cert};
use dvg_words::{ROM_FIRST, ROM_LAST};
use std::alloc::{AllocError, Global};

/// A row of numbers that looks random and is the same in each run.
#[derive(Drop)]
struct Numbers {
    state: u64,
}

impl Numbers {
    fn below(&mut self, limit: u32) -> u32
        requires { 0 < limit }
        ensures { result < limit }
    {
        self.state = self
            .state
            .wrapping_mul(6_364_136_223_846_793_005)
            .wrapping_add(1_442_695_040_888_963_407);
        (self.state >> 33) as u32 % limit
    }

    fn size(&mut self) -> i64
        ensures from { pos 0 ≤ℤ result }
        ensures to { result <ℤ pos 2000000 }
    {
        self.below(2_000_000) as i64
    }
}

/// Four keys for each address, with numbers of many lengths.
fn entry_at(index: u16, numbers: &mut Numbers) -> Entry
    requires { index < MOST_ENTRIES }
{
    let (x, y) = (numbers.size(), -numbers.size());
    Entry {
        addr: ROM_FIRST + index / 4,
        key: Key::At((index % 4) as u8),
        stop: if index % 2 == 0 {
            End::Rel { x, y }
        } else {
            End::Abs { x, y }
        },
        lit: LitBox::Span {
            x_min: -numbers.size(),
            x_max: numbers.size(),
            y_min: -numbers.size(),
            y_max: numbers.size(),
        },
        depth: numbers.below(4) as u8,
        words: 1 + numbers.below(20_000),
        scale: Key::At(numbers.below(16) as u8),
    }
}

fn entries_of(alloc: Global, count: u16) -> Result<Vec<Entry>, AllocError>
    requires { count ≤ MOST_ENTRIES }
{
    let mut numbers = Numbers { state: 1 };
    let mut entries = Vec::new(alloc);
    for index in 0..count {
        entries.push(entry_at(index, &mut numbers))?;
    }
    Ok(entries)
}

/// The text of a certificate.
pub fn text_of(alloc: Global, cert: &Cert) -> Result<Vec<u8>> {
    let mut out = Counted::new(Vec::new(alloc));
    write_cert(cert, &mut out)?;
    Ok(out.into_inner())
}

/// Reads the text of so many entries so many times, and gives its length in bytes.
pub fn read_texts(alloc: Global, count: u16, times: u32) -> Result<u64> {
    if count > 4096 {
        bail!("a certificate has 4096 entries at most");
    }
    let Ok(cert) = Cert::from_entries(entries_of(alloc, count)?, (ROM_FIRST, ROM_LAST)) else {
        bail!("these are not the entries of a certificate");
    };
    let text = text_of(alloc, &cert)?;
    for _ in 0..times {
        let cert = read_cert(alloc, &text)?;
        if cert.entries().len() != count as usize {
            bail!("an entry was lost");
        }
    }
    Ok(text.len() as u64)
}
