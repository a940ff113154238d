//! The frames of a run that take most, and the lines that tell them.

ghost use Rattle.std.specs.Prelude.{◌≡◌, ◌≢◌, ◌≤◌, ◌++◌, ◌∷◌, [], codes, decimal, length, string_bytes, IfNone, IfSome};
ghost use Rattle.dvg_spelling.specs.Report.{clocks_text};
ghost use Rattle.dvg_cmd.specs.Most.{lines_of, most_of, taken_text, with_timed};
ghost use Rattle.dvg_cmd.specs.Sent.{Writes};
ghost use Rattle.dvg_cmd.specs.Private.Leading.{IsFree, OutdoesNone, leads_with, name_at, outdone_by, with_name};

use arrayvec::ArrayVec;
use dvg_clocks::{ClockRange, TimedYes};
use dvg_text::{CountedWrite, WriteFault, push_bytes, write_lines};
use itoa::Buffer;
use std::alloc::Global;
use std::marker::Model;

/// A place for a name.
#[derive(Clone, Copy, Debug, PartialEq, Eq)]
enum Slot {
    First,
    Second,
    Third,
}

impl Slot {
    /// One that is neither of these.
    fn beside(one: Slot, other: Slot) -> Slot
        ensures one { result ≢ one }
        ensures other { result ≢ other }
    {
        match one {
            Slot::First => match other {
                Slot::Second => Slot::Third,
                Slot::First | Slot::Third => Slot::Second,
            },
            Slot::Second => match other {
                Slot::First => Slot::Third,
                Slot::Second | Slot::Third => Slot::First,
            },
            Slot::Third => match other {
                Slot::First => Slot::Second,
                Slot::Second | Slot::Third => Slot::First,
            },
        }
    }
}

/// The names of the frames that take most, each once.
#[derive(Drop)]
struct Names {
    first: String,
    second: String,
    third: String,
}

impl Names {
    /// The name at a place.
    fn at(&self, slot: Slot) -> &str
        ensures { result.now ≡ string_bytes (name_at self.now slot) }
    {
        match slot {
            Slot::First => self.first.as_str(),
            Slot::Second => self.second.as_str(),
            Slot::Third => self.third.as_str(),
        }
    }

    /// Puts a name at a place.
    fn put(&mut self, slot: Slot, name: String)
        ensures { self.new ≡ with_name self.old slot name }
    {
        match slot {
            Slot::First => self.first = name,
            Slot::Second => self.second = name,
            Slot::Third => self.third = name,
        }
    }
}

/// A frame that takes most: what it takes, and where its name is.
#[derive(Clone, Copy)]
struct Lead {
    timed: TimedYes,
    slot: Slot,
}

/// What a frame takes more of than all before it.
#[derive(Clone, Copy)]
struct Outdone {
    words: bool,
    depth: bool,
    clocks: bool,
}

/// The frames that take most.
#[derive(Clone, Copy)]
struct Leads {
    words: Lead,
    depth: Lead,
    clocks: Lead,
}

impl Leads {
    /// What a frame takes more of.
    fn outdone_by(&self, timed: &TimedYes) -> Outdone
        ensures { result ≡ outdone_by self.now timed.now }
    {
        Outdone {
            words: self.words.timed.yes.words < timed.yes.words,
            depth: self.depth.timed.yes.depth < timed.yes.depth,
            clocks: self.clocks.timed.clocks.most < timed.clocks.most,
        }
    }

    /// A place where no name stands of a frame that is not outdone; `None` if none is.
    fn free_slot(&self, outdone: Outdone) -> Option<Slot>
        ensures some { IfSome result (IsFree self.now outdone) }
        ensures none { IfNone result (OutdoesNone outdone) }
    {
        if outdone.words {
            Some(Slot::beside(self.depth.slot, self.clocks.slot))
        } else if outdone.depth {
            Some(Slot::beside(self.words.slot, self.clocks.slot))
        } else if outdone.clocks {
            Some(Slot::beside(self.words.slot, self.depth.slot))
        } else {
            None
        }
    }

    /// With this frame in place of those that are outdone.
    fn with(self, outdone: Outdone, lead: Lead) -> Leads
        ensures { result ≡ leads_with self outdone lead }
    {
        Leads {
            words: if outdone.words { lead } else { self.words },
            depth: if outdone.depth { lead } else { self.depth },
            clocks: if outdone.clocks { lead } else { self.clocks },
        }
    }
}

/// The first frame of those that take the most words, of those that take the most depth, and of those that take the most clocks.
#[derive(Drop)]
pub struct MostTaken {
    leads: Leads,
    names: Names,
}

impl Model for MostTaken {
    ghost use Rattle.dvg_cmd.specs.Most.{Most};
    ghost use Rattle.dvg_cmd.specs.Private.Leading.{most_in};

    ghost Value = { Most };

    ghost view = { λ most. most_in most.names most.leads };
}

/// The longest head of a line: the word `most`, 9 bytes for the label, 20 for the number, and a space.
type Head = ArrayVec<u8, 34>;

/// What stands before the name in a line.
fn head_of(label: &[u8], count: u64) -> Head
    requires { length label.now ≤ 9 }
    ensures { result.items ≡ codes "most" ++ label.now ++ decimal count ++ codes " " }
{
    let mut head = Head::new();
    push_bytes(&mut head, b"most");
    push_bytes(&mut head, label);
    push_bytes(&mut head, Buffer::new().format(count).as_bytes());
    push_bytes(&mut head, b" ");
    head
}

/// Writes how much of what a frame takes, by one write if the line fits one.
fn write_taken<W: CountedWrite>(
    label: &[u8],
    count: u64,
    name: &str,
    out: &mut W,
) -> Result<(), WriteFault>
    requires { length label.now ≤ 9 }
    ensures { Writes W.contents W.whole_writes W.failures out.old out.new result
        (taken_text (label.now ++ decimal count) name.now ∷ []) }
{
    let head = head_of(label, count);
    write_lines(head.as_slice(), name.as_bytes(), b"\n", out)
}

/// The label of clocks: of just so many, or of so many at most.
fn clocks_label(clocks: &ClockRange) -> &'static [u8]
    ensures text { result.now ++ decimal clocks.now.most ≡ clocks_text clocks.now }
    ensures short { length result.now ≤ 9 }
{
    if clocks.least == clocks.most {
        b" clocks="
    } else {
        b" clocks<="
    }
}

impl MostTaken {
    /// A frame alone.
    pub fn of(alloc: Global, name: String, timed: &TimedYes) -> MostTaken
        ensures { result ≡ most_of (string_bytes name) timed.now }
    {
        let lead = Lead {
            timed: *timed,
            slot: Slot::First,
        };
        MostTaken {
            leads: Leads {
                words: lead,
                depth: lead,
                clocks: lead,
            },
            names: Names {
                first: name,
                second: String::new(alloc),
                third: String::new(alloc),
            },
        }
    }

    /// Takes in one frame more.
    pub fn add(&mut self, name: String, timed: &TimedYes)
        ensures { self.new ≡ with_timed self.old (string_bytes name) timed.now }
    {
        let outdone = self.leads.outdone_by(timed);
        if let Some(slot) = self.leads.free_slot(outdone) {
            self.names.put(slot, name);
            let lead = Lead {
                timed: *timed,
                slot,
            };
            self.leads = self.leads.with(outdone, lead);
        }
    }

    /// Writes the three lines, each by one write if it fits one.
    pub fn write<W: CountedWrite>(&self, out: &mut W) -> Result<(), WriteFault>
        ensures { Writes W.contents W.whole_writes W.failures out.old out.new result (lines_of self.now) }
    {
        let Leads {
            words,
            depth,
            clocks,
        } = &self.leads;
        let most_words = u64::from(words.timed.yes.words);
        write_taken(b" words=", most_words, self.names.at(words.slot), out)?;
        let most_depth = u64::from(depth.timed.yes.depth);
        write_taken(b" depth=", most_depth, self.names.at(depth.slot), out)?;
        let range = &clocks.timed.clocks;
        let name = self.names.at(clocks.slot);
        write_taken(clocks_label(range), range.most, name, out)
    }
}
