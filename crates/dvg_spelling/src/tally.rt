//! Counts the lines of frames by what they say, and spells the line with these counts.

ghost use Rattle.std.specs.Prelude.{◌≡◌, ◌+◌, ◌≤◌, ◌<◌, ◌++◌, true, length, decimal};
ghost use Rattle.dvg_text.specs.Devices.{count_after};
ghost use Rattle.dvg_spelling.specs.Tally.{answer_number, no_lines, with_answer, refused_text, refused_texts, summary_text};

use crate::answer::{Answer, FrameAnswer};
use crate::outcome::Outcome;
use arrayvec::ArrayVec;
use dvg_make::{FrameRefusal, MakeFault};
use dvg_text::push_bytes;
use itoa::Buffer;

/// A summary, with its LF: 30 bytes at most for each number's count, and 80 for the other three.
pub type Summary = ArrayVec<u8, 7760>;

/// How many lines of frames say `accepted`, `refused` with each number, `cannot read` and `out of memory`. Each count stops at
/// 4,294,967,295.
#[derive(Clone, Copy, Debug, PartialEq, Eq)]
pub struct Tally {
    /// How many accepted lines.
    pub accepted: u32,
    /// How many refusals by each number.
    pub refused: [u32; 256],
    /// How many frames could not be opened or read.
    pub unread: u32,
    /// How often memory was out.
    pub no_memory: u32,
}

/// The number of a refusal, or 0 if the answer is none.
pub fn answer_number(answer: &FrameAnswer) -> u8
    ensures { result ≡ answer_number answer.now }
{
    match answer {
        Answer::Judged(Err(FrameRefusal::Make { why, .. })) => MakeFault::from(*why).number(),
        Answer::Judged(Err(FrameRefusal::Check(refusal))) => refusal.number(),
        Answer::Slow(_) => 58,
        Answer::Judged(Err(FrameRefusal::NoMemory) | Ok(_))
        | Answer::Timed(_)
        | Answer::Unread
        | Answer::NoMemory => 0,
    }
}

impl Tally {
    /// The tally of no line.
    pub fn new() -> Tally
        ensures { result ≡ no_lines }
    {
        Tally {
            accepted: 0,
            refused: [0; 256],
            unread: 0,
            no_memory: 0,
        }
    }

    /// Counts the line of this answer.
    pub fn add(&mut self, answer: &FrameAnswer)
        ensures { self.new ≡ with_answer self.old answer.now }
    {
        match answer.outcome() {
            Outcome::Accepted => count(&mut self.accepted),
            Outcome::Refused => count(&mut self.refused[usize::from(answer_number(answer))]),
            Outcome::NoMemory => count(&mut self.no_memory),
            Outcome::Unread => count(&mut self.unread),
        }
    }
}

/// One more.
pub fn count(counted: &mut u32)
    ensures { counted.new ≡ count_after true counted.old }
{
    *counted = counted.saturating_add(1);
}

/// The line that tells a tally, with its LF: how many lines were accepted, how many refused by each number that has any, how many
/// frames could not be opened or read, and how often memory was out. Takes no memory.
pub fn summary_of(tally: &Tally) -> Summary
    ensures { result.items ≡ summary_text tally.now }
{
    let mut line = Summary::new();
    push_count(&mut line, b"accepted=", tally.accepted);
    push_refusals(&mut line, &tally.refused);
    push_count(&mut line, b" unreadable=", tally.unread);
    push_count(&mut line, b" out-of-memory=", tally.no_memory);
    push_bytes(&mut line, b"\n");
    line
}

/// A count behind its label.
pub fn push_count(line: &mut Summary, label: &[u8], count: u32)
    requires { length line.old.items + length label.now ≤ 7750 }
    ensures text { line.new.items ≡ line.old.items ++ label.now ++ decimal count }
    ensures short { length line.new.items ≤ length line.old.items + length label.now + 10 }
{
    push_bytes(line, label);
    push_bytes(line, Buffer::new().format(count).as_bytes());
}

/// How many were refused by this number, if any.
fn push_refused(line: &mut Summary, number: u32, count: u32)
    requires { length line.old.items ≤ 7700 }
    ensures text { line.new.items ≡ line.old.items ++ refused_text number count }
    ensures short { length line.new.items ≤ length line.old.items + 30 }
{
    if count > 0 {
        push_count(line, b" refused-", number);
        push_count(line, b"=", count);
    }
}

/// How many were refused by each number that has any.
#[tactic(auto, using(std::proofs::lemmas::Grind::common_steps, crate::proofs::Tallies::refused_next))]
fn push_refusals(line: &mut Summary, refused: &[u32; 256])
    requires { length line.old.items ≤ 19 }
    ensures text { line.new.items ≡ line.old.items ++ refused_texts 0 refused.now }
    ensures short { length line.new.items ≤ length line.old.items + 7680 }
{
    for number in 0..256u32 {
        push_refused(line, number, refused[number as usize]);
    }
}
