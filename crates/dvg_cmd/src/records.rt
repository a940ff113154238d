//! Frames that are records of one length, one behind another in an input.

ghost use Rattle.std.specs.Prelude.{◌≡◌, ◌≤◌, ℕ, decimal, string_bytes, IfSome, IfNone, IfOk, OnErr};
ghost use Rattle.dvg_words.specs.Memory.{IsFrameLength};
ghost use Rattle.dvg_cmd.specs.Records.{ReadsRecord, record_name};

use crate::reading::fill;
use dvg_text::{CountedRead, read_decimal};
use itoa::Buffer;
use std::alloc::{AllocError, Global};
use std::marker::Model;

/// How many bytes the longest record has, as many as the longest frame.
const LONGEST: u16 = 2048;

/// How many bytes each record of an input has: an even number from 2 to 2048, as a frame.
#[derive(Clone, Copy, Debug, PartialEq, Eq)]
pub struct RecordLength {
    bytes: u16,
}

impl Model for RecordLength {
    ghost use Rattle.std.specs.Prelude.{ℕ};
    ghost use Rattle.dvg_words.specs.Memory.{IsFrameLength};

    ghost Value = { ℕ };

    ghost view = { λ l. l.bytes };

    ghost invariant = { λ l. IsFrameLength l.bytes };

    ghost inverse = { λ v. record { bytes = v } };
}

impl RecordLength {
    /// Records of so many bytes, if a frame may have so many.
    fn new(bytes: u16) -> Option<RecordLength>
        ensures some { IfSome result (λ length. (length ≡ bytes) × IsFrameLength length) }
        ensures none { IfNone result (IsFrameLength bytes → ⊥) }
    {
        if 2 <= bytes && bytes <= LONGEST && bytes % 2 == 0 {
            Some(RecordLength { bytes })
        } else {
            None
        }
    }

    /// How many bytes these are.
    fn bytes(self) -> usize
        ensures value { result ≡ self }
        ensures length { IsFrameLength result }
    {
        usize::from(self.bytes)
    }
}

/// The length of records that a word of the command line spells: a decimal without leading zeros, even, from 2 to 2048; `None` for any
/// other word.
#[tactic(auto, using(std::proofs::lemmas::Fmt::decimal_injective))]
pub fn record_length_of(text: &str) -> Option<RecordLength>
    ensures some { IfSome result (λ length. IsFrameLength length × (text.now ≡ decimal length)) }
    ensures none { IfNone result ((length : ℕ) → IsFrameLength length → text.now ≡ decimal length → ⊥) }
{
    RecordLength::new(read_decimal(text.as_bytes(), LONGEST)?)
}

/// What stands in an input where its next record begins.
#[derive(Debug, PartialEq, Eq, Drop)]
pub enum Record {
    /// The bytes of a record.
    Whole(Vec<u8>),
    /// Fewer bytes than a record has, or the input can't be read on.
    Cut,
    /// Nothing: the input ends there.
    End,
}

/// Reads the next record of an input: so many bytes, and no byte behind them. Where there is no memory, nothing is read.
pub fn read_record<R: CountedRead>(
    alloc: Global,
    input: &mut R,
    length: RecordLength,
) -> Result<Record, AllocError>
    ensures read { IfOk result (ReadsRecord length (R.remaining input.old) (R.remaining input.new)
        (R.failures input.old) (R.failures input.new)) }
    ensures memory { OnErr result (input.new ≡ input.old) }
{
    let count = length.bytes();
    let mut bytes = vec![in alloc; 0; count]?;
    match fill(input, bytes.as_mut_slice()) {
        Ok(0) => Ok(Record::End),
        Ok(filled) if filled == count => Ok(Record::Whole(bytes)),
        Ok(_) => Ok(Record::Cut),
        Err(_) => Ok(Record::Cut),
    }
}

/// The name in the line of a record, as `FILE#17`: the name of its input, and its number there.
pub fn record_name(alloc: Global, input: &str, number: u64) -> Result<String, AllocError>
    ensures { IfOk result (λ name. string_bytes name ≡ record_name input.now number) }
{
    let mut name = String::from_str(alloc, input)?;
    name.push('#')?;
    name.push_str(Buffer::new().format(number))?;
    Ok(name)
}
