//! The report: the one line that is written for a verdict.

ghost use Rattle.std.specs.Prelude.{◌≡◌, ◌+◌, ◌≤◌, ◌<◌, ◌++◌, [], length, codes, decimal};
ghost use Rattle.dvg_spelling.specs.Messages.{fault_message, make_message, make_line_text};
ghost use Rattle.dvg_spelling.specs.Report.{accepted_text, clocks_text, entry_text, hex_address, hex_word, place_text, refusal_text, refused_at_text, report_text, unmade_text};

use crate::answer::ItemPlace;
use crate::fault::{MakeRunFault, RunFault};
use crate::status::message_of;
use arrayvec::ArrayVec;
use dvg_cert::Key;
use dvg_check::{Refusal, Yes};
use dvg_clocks::ClockRange;
use dvg_make::{EntryFault, MakeFault};
use dvg_text::{address_digits, push_bytes};
use dvg_words::{ADDRESS_END, ImageFault};
use itoa::Buffer;
use std::marker::Model;

/// A line of at most 96 bytes, its LF included: 64 where it tells no clocks.
#[derive(Drop)]
pub struct Report {
    line: ArrayVec<u8, 96>,
}

impl Model for Report {
    ghost use Rattle.std.specs.Prelude.{ℕ, ◌≤◌, List, length};

    ghost Value = { List ℕ };

    ghost view = { λ r. r.line.items };

    ghost invariant = { λ r. length r.line.items ≤ 96 };
}

impl Report {
    /// A line of no byte so far.
    pub fn new() -> Report
        ensures { result ≡ [] }
    {
        Report {
            line: ArrayVec::new(),
        }
    }

    /// The bytes of the line, 96 at most.
    pub fn as_bytes(&self) -> &[u8]
        ensures bytes { result.now ≡ self.now }
        ensures short { length result.now ≤ 96 }
    {
        self.line.as_slice()
    }

    /// Puts a text behind the line.
    pub fn push(&mut self, text: &[u8])
        requires { length self.old + length text.now ≤ 96 }
        ensures { self.new ≡ self.old ++ text.now }
    {
        push_bytes(&mut self.line, text);
    }

    fn push_decimal(&mut self, number: u32)
        requires { length self.old ≤ 54 }
        ensures text { self.new ≡ self.old ++ decimal number }
        ensures short { length self.new ≤ length self.old + 10 }
    {
        self.push(Buffer::new().format(number).as_bytes());
    }

    /// A count behind its label.
    pub fn push_count(&mut self, label: &[u8], count: u32)
        requires { length self.old + length label.now ≤ 54 }
        ensures text { self.new ≡ self.old ++ label.now ++ decimal count }
        ensures short { length self.new ≤ length self.old + length label.now + 10 }
    {
        self.push(label);
        self.push_decimal(count);
    }

    /// A word address behind its label, in hexadecimal capitals.
    pub fn push_address(&mut self, label: &[u8], word: u16)
        requires { length self.old + length label.now ≤ 59 }
        ensures text { self.new ≡ self.old ++ label.now ++ hex_address word }
        ensures short { length self.new ≤ length self.old + length label.now + 4 }
    {
        self.push(label);
        self.push(hex_address(word).as_slice());
    }

    /// The name of an entry behind a label: its address, a slash and its key.
    pub fn push_entry_name(&mut self, label: &[u8], addr: u16, key: Key)
        requires { length self.old + length label.now ≤ 49 }
        ensures text { self.new ≡ self.old ++ label.now ++ entry_text addr key }
        ensures short { length self.new ≤ length self.old + length label.now + 15 }
    {
        self.push_address(label, addr);
        self.push(b"/");
        match key {
            Key::At(scale) => self.push_decimal(u32::from(scale)),
            Key::Any => self.push(b"any"),
        }
    }

    /// The counts of what is accepted.
    pub fn push_accepted(&mut self, yes: &Yes)
        requires { length self.old ≤ 2 }
        ensures text { self.new ≡ self.old ++ accepted_text yes.now }
        ensures short { length self.new ≤ 63 }
    {
        self.push_count(b"accepted shapes=", yes.shapes);
        self.push_count(b" words=", yes.words);
        self.push_count(b" depth=", u32::from(yes.depth));
    }

    /// The clocks of what is accepted: just so many, or so many at most.
    pub fn push_clocks(&mut self, clocks: &ClockRange)
        requires { length self.old ≤ 63 }
        ensures text { self.new ≡ self.old ++ clocks_text clocks.now }
        ensures short { length self.new ≤ 95 }
    {
        self.push(if clocks.least == clocks.most {
            b" clocks="
        } else {
            b" clocks<="
        });
        self.push(Buffer::new().format(clocks.most).as_bytes());
    }

    /// Where an item stands, behind a label.
    fn push_place(&mut self, label: &[u8], place: ItemPlace)
        requires { length self.old + length label.now ≤ 30 }
        ensures text { self.new ≡ self.old ++ label.now ++ place_text place }
        ensures short { length self.new ≤ 63 }
    {
        self.push(label);
        match place {
            ItemPlace::Frame(at) => self.push_address(b"frame at ", at),
            ItemPlace::RecipeLine(line) => self.push_count(b"recipe line ", line),
        }
    }

    /// A refusal by this number because of the item that stands here.
    pub fn push_refused_at(&mut self, number: u8, place: ItemPlace)
        requires { length self.old ≤ 2 }
        ensures text { self.new ≡ self.old ++ refused_at_text number place }
        ensures short { length self.new ≤ 63 }
    {
        self.push_count(b"refused ", u32::from(number));
        self.push_place(b" ", place);
    }

    /// Why the entry is not made that the call needs which stands here.
    pub fn push_unmade(&mut self, why: EntryFault, caller: ItemPlace)
        requires { length self.old ≤ 2 }
        ensures text { self.new ≡ self.old ++ unmade_text why caller }
        ensures short { length self.new ≤ 63 }
    {
        match why {
            EntryFault::Unstraight { word } => self.push_address(b"refused 60 at ", word),
            EntryFault::Deep => self.push(b"refused 61"),
            EntryFault::TooManyWords => self.push(b"refused 62"),
            EntryFault::TooManyEntries => self.push(b"refused 62 by entries"),
            EntryFault::Memory => return self.push(b"out of memory"),
        }
        self.push_place(b" for ", caller);
    }

    /// With its LF.
    pub fn ended(self) -> Report
        requires { length self ≤ 95 }
        ensures { result ≡ self ++ codes "\n" }
    {
        let mut line = self;
        line.push(b"\n");
        line
    }
}

/// A word in four hexadecimal capitals.
pub fn hex_word(word: u16) -> [u8; 4]
    ensures { result ≡ hex_word word }
{
    let [.., first] = address_digits(word / ADDRESS_END);
    let [second, third, fourth] = address_digits(word % ADDRESS_END);
    [first, second, third, fourth]
}

/// A word address in hexadecimal capitals: three digits, or four if it is 1000 or more. Takes no memory.
pub fn hex_address(word: u16) -> ArrayVec<u8, 4>
    ensures { result.items ≡ hex_address word }
{
    let digits = hex_word(word);
    let mut address = ArrayVec::new();
    push_bytes(
        &mut address,
        if word < ADDRESS_END {
            &digits[1..]
        } else {
            &digits
        },
    );
    address
}

/// The name of an entry: its address, a slash and its key. Takes no memory.
pub fn entry_name(addr: u16, key: Key) -> Report
    ensures text { result ≡ entry_text addr key }
    ensures short { length result ≤ 64 }
{
    let mut name = Report::new();
    name.push_entry_name(b"", addr, key);
    name
}

/// The line of a verdict, with its LF: 64 bytes at most. Takes no memory.
pub fn report_of(verdict: &Result<Yes, Refusal>) -> Report
    ensures text { result ≡ report_text verdict.now }
    ensures short { length result ≤ 64 }
{
    let mut report = Report::new();
    match verdict {
        Ok(yes) => report.push_accepted(yes),
        Err(refusal) => push_refusal(&mut report, refusal),
    }
    report.ended()
}

/// The line on standard error of a run that made no certificate, with its LF: 64 bytes at most. Where the fault is a frame's, it is
/// the line from behind the frame's name on. Takes no memory.
pub fn make_report_of(fault: &MakeRunFault) -> Report
    ensures text { result ≡ make_message fault.now ++ codes "\n" }
    ensures short { length result ≤ 64 }
{
    let mut report = Report::new();
    push_make_fault(&mut report, fault);
    report.ended()
}

/// The line of a maker's answer, with its LF: how many entries it makes, or why it makes none. 64 bytes at most.
/// Takes no memory.
pub fn make_line_of(made: &Result<u32, MakeRunFault>) -> Report
    ensures text { result ≡ make_line_text made.now }
    ensures short { length result ≤ 64 }
{
    match made {
        Ok(entries) => {
            let mut report = Report::new();
            report.push_count(b"made entries=", *entries);
            report.ended()
        }
        Err(fault) => make_report_of(fault),
    }
}

fn push_make_fault(report: &mut Report, fault: &MakeRunFault)
    requires { report.old ≡ [] }
    ensures text { report.new ≡ make_message fault.now }
    ensures short { length report.new ≤ 63 }
{
    match fault {
        MakeRunFault::RomLength => report.push(b"refused 1"),
        MakeRunFault::FrameLength { .. } => report.push(b": refused 2"),
        MakeRunFault::Make(MakeFault::Unstraight { word }) => {
            report.push_address(b"refused 60 at ", *word)
        }
        MakeRunFault::Make(MakeFault::Deep) => report.push(b"refused 61"),
        MakeRunFault::Make(MakeFault::TooLarge) => report.push(b"refused 62"),
        MakeRunFault::Make(MakeFault::Memory) => push_message(report, &RunFault::Memory),
        MakeRunFault::Call { call, why } => {
            report.push(b": ");
            report.push_unmade(*why, ItemPlace::Frame(call.at));
        }
        MakeRunFault::ReadRom => push_message(report, &RunFault::ReadRom),
        MakeRunFault::ReadFrame => push_message(report, &RunFault::ReadFrame),
        MakeRunFault::Write => push_message(report, &RunFault::Write),
    }
}

fn push_message(report: &mut Report, fault: &RunFault)
    requires { report.old ≡ [] }
    ensures text { report.new ≡ fault_message fault.now }
    ensures short { length report.new ≤ 63 }
{
    report.push(message_of(fault).as_bytes());
}

/// The number of a refusal, and where it stands.
pub fn push_refusal(report: &mut Report, refusal: &Refusal)
    requires { length report.old ≤ 2 }
    ensures text { report.new ≡ report.old ++ codes "refused " ++ refusal_text refusal.now }
    ensures short { length report.new ≤ 63 }
{
    match refusal {
        Refusal::Image(ImageFault::RomLength) => report.push(b"refused 1"),
        Refusal::Image(ImageFault::FrameLength) => report.push(b"refused 2"),
        Refusal::BudgetRange => report.push(b"refused 49"),
        Refusal::Cert(fault) => {
            report.push_count(b"refused ", u32::from(fault.why.number()));
            report.push_count(b" certificate line ", fault.line);
        }
        Refusal::IndexMemory => report.push(b"refused 50"),
        Refusal::Shape(fault) => {
            report.push_count(b"refused ", u32::from(fault.why.number()));
            report.push_entry_name(b" shape ", fault.addr, fault.key);
            report.push_address(b" at ", fault.word);
        }
        Refusal::Frame(fault) => {
            report.push_count(b"refused ", u32::from(fault.why.number()));
            report.push_address(b" frame at ", fault.word);
        }
    }
}
