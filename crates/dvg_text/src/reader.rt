//! Reading a certificate, whole or in pieces.

ghost use Rattle.std.specs.Prelude.{◌≡◌, ◌+◌, ◌<◌, ◌==◌, [], ◌++◌, length, position, OnOk, OnErr, IfNone, IfSome};
ghost use Rattle.dvg_cert.specs.declared.fault.CertWhy.TheVariants.{After};
ghost use Rattle.dvg_text.specs.Reading.{IsTaken, IsRest, IsUnended, ReadAnswer};
ghost use Rattle.dvg_text.specs.Stream.{Stream, Open, FeedsTo, FinishesTo};
ghost use Rattle.dvg_text.specs.Private.Progress.{stream_of, EndsLine, IsProgress, TakesEntries, TakesLine, TakesNext, TakesPiece};

use crate::limits::{LINE_FEED, LONGEST_LINE};
use crate::line_buffer::{LineBuffer, push_bytes};
use crate::refused::RefusedText;
use crate::taken::TakenLines;
use dvg_cert::{Cert, CertFault, CertWhy};
use memchr::memchr;
use std::alloc::Global;
use std::marker::Model;

/// Reads a certificate in pieces. It keeps the entries, and the part of a line with which the last piece ended, or a refused line.
///
/// Contracts see it as the bytes so far, or as the refusal of an earlier call, which every later call answers again.
#[derive(Drop)]
pub struct CertReader {
    lines: TakenLines,
    /// The line begun, or the one that is refused.
    begun: LineBuffer,
    refused: Option<CertFault>,
}

impl Model for CertReader {
    ghost Value = { Stream };

    ghost view = { λ s. stream_of s.refused s.lines s.begun.items };

    ghost invariant = { λ s. IsProgress s.refused s.lines s.begun.items };
}

impl CertReader {
    /// A reader that has read nothing. Takes no memory.
    pub fn new(alloc: Global) -> CertReader
        ensures { result ≡ Open [] }
    {
        CertReader {
            lines: TakenLines::new(alloc),
            begun: LineBuffer::new(),
            refused: None,
        }
    }

    /// Reads the next piece. The text may be cut anywhere. Refuses 10 to 12 and 14 to 16; 13 comes from `finish` alone. After a
    /// refusal every call answers it again.
    #[tactic(auto, using(crate::proofs::TextLaws::only_memory))]
    pub fn feed(&mut self, piece: &[u8]) -> Result<(), CertFault>
        ensures { FeedsTo self.old piece.now self.new result }
    {
        if let Some(fault) = self.refused {
            return Err(fault);
        }
        match take_piece(&mut self.lines, &mut self.begun, piece) {
            Ok(()) => Ok(()),
            Err(fault) => {
                self.refused = Some(fault);
                Err(fault)
            }
        }
    }

    /// The certificate that all pieces together spell. Refuses 13 if there was no last line; after a refusal it answers that one
    /// again.
    pub fn finish(self) -> Result<Cert, CertFault>
        ensures { FinishesTo self result }
    {
        if let Some(fault) = self.refused {
            return Err(fault);
        }
        self.lines.finish()
    }

    /// The text that a call refused so.
    pub fn into_refused(self, fault: CertFault) -> RefusedText
        ensures { result ≡ fault }
    {
        RefusedText::at(fault, self.begun, &self.lines)
    }
}

/// The certificate that a text spells, or why the text is refused, 10 to 16.
pub fn read_cert(alloc: Global, text: &[u8]) -> Result<Cert, CertFault>
    ensures { ReadAnswer text.now result }
{
    let mut reader = CertReader::new(alloc);
    reader.feed(text)?;
    reader.finish()
}

/// Reads the lines of a piece in place, and keeps the part of a line with which it ends. Lines of entries are read without a
/// search for their end.
fn take_piece(lines: &mut TakenLines, begun: &mut LineBuffer, piece: &[u8]) -> Result<(), CertFault>
    requires taken { IsTaken lines.old }
    requires begun { IsRest lines.old begun.old.items }
    ensures { TakesPiece lines.old begun.old.items piece.now lines.new begun.new.items result }
{
    let mut rest = take_entries(lines, begun, piece)?;
    while let Some(after) = take_next(lines, begun, rest)? {
        rest = take_entries(lines, begun, after)?;
    }
    Ok(())
}

/// Takes the whole lines of entries with which a piece begins, and gives the bytes after them. It takes none while a line is begun.
#[inline(always)]
fn take_entries<'a>(
    lines: &mut TakenLines,
    begun: &LineBuffer,
    rest: &'a [u8],
) -> Result<&'a [u8], CertFault>
    requires taken { IsTaken lines.old }
    requires begun { IsRest lines.old begun.now.items }
    ensures { TakesEntries (λ x. x.now) lines.old begun.now.items rest.now lines.new result }
{
    if !begun.is_empty() {
        return Ok(rest);
    }
    match lines.take_first(rest) {
        Ok(after) => Ok(after),
        Err(why) => Err(CertFault {
            line: lines.line_number(),
            why,
        }),
    }
}

/// Takes the next line of a piece and gives what follows it. If no line ends in the piece, it keeps all of it.
#[inline(never)]
fn take_next<'a>(
    lines: &mut TakenLines,
    begun: &mut LineBuffer,
    rest: &'a [u8],
) -> Result<Option<&'a [u8]>, CertFault>
    requires taken { IsTaken lines.old }
    requires begun { IsRest lines.old begun.old.items }
    ensures { TakesNext (λ x. x.now) lines.old begun.old.items rest.now lines.new begun.new.items result }
{
    let line = lines.line_number();
    if lines.is_whole() {
        return match fault_after(line, rest) {
            Some(fault) => Err(fault),
            None => Ok(None),
        };
    }
    let at = match line_end(rest, LONGEST_LINE - begun.len()) {
        Ok(Some(at)) => at,
        Ok(None) => {
            push_bytes(begun, rest);
            return Ok(None);
        }
        Err(why) => return Err(CertFault { line, why }),
    };
    match take_begun(lines, begun, &rest[..at]) {
        Ok(()) => Ok(Some(&rest[at + 1..])),
        Err(why) => Err(CertFault { line, why }),
    }
}

/// The refusal of bytes after the last line, if there are any.
fn fault_after(line: u32, rest: &[u8]) -> Option<CertFault>
    ensures none { IfNone result (rest.now ≡ []) }
    ensures some { IfSome result (λ f. (0 < length rest.now) × (f ≡ record { line = line; why = After })) }
{
    if rest.is_empty() {
        return None;
    }
    Some(CertFault {
        line,
        why: CertWhy::After,
    })
}

/// Takes the line that consists of the begun line and these bytes. A line that lies whole in the piece is copied only if it is refused.
#[inline(always)]
fn take_begun(lines: &mut TakenLines, begun: &mut LineBuffer, prefix: &[u8]) -> Result<(), CertWhy>
    requires open { IsUnended lines.old }
    requires short { length begun.old.items + length prefix.now < LONGEST_LINE }
    ensures line { TakesLine lines.old (begun.old.items ++ prefix.now) lines.new result }
    ensures empty { OnOk result (begun.new.items ≡ []) }
    ensures kept { OnErr result (begun.new.items ≡ begun.old.items ++ prefix.now) }
{
    if begun.is_empty() {
        if let Err(why) = lines.take_line(prefix) {
            push_bytes(begun, prefix);
            return Err(why);
        }
        return Ok(());
    }
    push_bytes(begun, prefix);
    lines.take_line(begun.as_slice())?;
    begun.clear();
    Ok(())
}

/// The position of the LF that ends the next line, `None` if there is none yet. Refuses a line of `room` bytes or more.
#[tactic(auto, using(crate::proofs::Cutting::found_at, crate::proofs::Cutting::free_none))]
#[inline(always)]
fn line_end(rest: &[u8], room: usize) -> Result<Option<usize>, CertWhy>
    ensures { EndsLine room rest.now result }
{
    if rest.len() < room {
        Ok(line_feed_at(rest))
    } else {
        match line_feed_at(&rest[..room]) {
            Some(at) => Ok(Some(at)),
            None => Err(CertWhy::TooLong),
        }
    }
}

/// The position of the first LF.
#[tactic(auto, using(crate::proofs::Cutting::first_byte))]
#[inline(always)]
fn line_feed_at(bytes: &[u8]) -> Option<usize>
    ensures { result ≡ position (λ b. b == LINE_FEED) bytes.now }
{
    memchr(LINE_FEED, bytes)
}
