//! Running over several things, one after another.

ghost use Rattle.std.specs.Prelude.{◌≡◌, ℕ, List, [], IfOk, OnOk, OnErr, is_err};
ghost use Rattle.std.specs.Iterator.{IsFinite};
ghost use Rattle.dvg_text.specs.Devices.{count_after};
ghost use Rattle.dvg_cmd.specs.Sent.{Writes};
ghost use Rattle.dvg_cmd.specs.Telling.{Line, Telling, HoldsOfAll, HoldsOfTaken, no_line, summary_of, Reports, ReportsPrefix, TellsAlike, WritesLine, WritesLinePrefix};

use crate::progress::Progress;
use dvg_spelling::Outcome;
use dvg_text::{CountedWrite, WriteFault};
use std::alloc::Global;

/// What is counted of lines, and told behind them.
pub trait Summary {
    /// The texts that tell it.
    ghost texts: { Self → List (List ℕ) };

    /// Writes them, each by one write if it fits one.
    fn write<W: CountedWrite>(&self, out: &mut W) -> Result<(), WriteFault>
        ensures { Writes W.contents W.whole_writes W.failures out.old out.new result (texts self.now) };
}

/// Nothing is counted.
impl Summary for () {
    ghost texts = { λ _. [] };

    fn write<W: CountedWrite>(&self, _out: &mut W) -> Result<(), WriteFault> {
        Ok(())
    }
}

/// What tells of things, one after another.
pub trait Tell<A> {
    /// The answer to a thing, with what is behind its line.
    type Answer;

    /// What is counted of lines.
    type Tally: Summary + Drop;

    /// What must hold of it before it tells of a thing.
    ghost valid: { Self → Type 0 };

    /// Which lines a thing may have.
    ghost is_line_of: { Self → A → Line Self.Answer → Type 0 };

    /// How answers are told and counted.
    ghost telling: { Self → Telling Self.Answer Self.Tally };

    /// Answers a thing, writes its line if it is listed, and takes it in. It tells of later things in the same way.
    fn tell<W: CountedWrite>(
        &mut self,
        alloc: Global,
        thing: A,
        progress: &mut Progress<Self::Tally>,
        out: &mut W,
    ) -> Result<(), WriteFault>
        requires { valid self.old }
        ensures ok { OnOk result (WritesLine (is_line_of self.old) (telling self.old) thing (W.contents out.old) (W.contents out.new)
            progress.old progress.new (W.whole_writes out.old) (W.whole_writes out.new)) }
        ensures prefix { OnErr result (WritesLinePrefix (is_line_of self.old) (telling self.old) thing (W.contents out.old)
            (W.contents out.new) progress.old) }
        ensures count { W.failures out.new ≡ count_after (is_err result) (W.failures out.old) }
        ensures valid { valid self.new }
        ensures alike { TellsAlike (is_line_of self.old) (is_line_of self.new) }
        ensures telling { telling self.new ≡ telling self.old };
}

/// Writes the summary, if it is asked for.
fn write_summary<T: Summary, W: CountedWrite>(
    progress: &Progress<T>,
    out: &mut W,
) -> Result<(), WriteFault>
    ensures { Writes W.contents W.whole_writes W.failures out.old out.new result (summary_of T.texts progress.now) }
{
    if !progress.layout.summary {
        return Ok(());
    }
    progress.write_apart(out)?;
    progress.tally.write(out)
}

/// Tells of things, one after another: writes a line for each that is listed, and a summary behind them if it is asked for. Answers the
/// worst outcome. The next thing is taken once the line of the one before it is written.
pub fn run_each<A, T: Tell<A>, I: Iterator<Item = A> + Drop, W: CountedWrite>(
    alloc: Global,
    teller: &mut T,
    begun: Progress<T::Tally>,
    things: I,
    out: &mut W,
) -> Result<Outcome, WriteFault>
    requires valid { T.valid teller.old }
    requires can { I.can_next things }
    requires ends { IsFinite (I.remaining things) }
    requires begun { begun ≡ no_line (T.telling teller.old) }
    requires last { (T.telling teller.old).last ≡ T.Tally.texts }

    // A line is written for each thing that is listed, in their order, and then the summary, each by one write if it fits one.
    ensures report { IfOk result (λ end. HoldsOfAll I.next_gives things (λ taken.
        Reports (T.is_line_of teller.old) (T.telling teller.old) taken (W.contents out.old) (W.contents out.new)
        (W.whole_writes out.old) (W.whole_writes out.new) end)) }

    // Where the writer failed, a prefix of what is written of the things that were taken.
    ensures prefix { OnErr result (HoldsOfTaken I.next_gives things (λ taken.
        ReportsPrefix (T.is_line_of teller.old) (T.telling teller.old) taken (W.contents out.old) (W.contents out.new))) }
    ensures count { W.failures out.new ≡ count_after (is_err result) (W.failures out.old) }
{
    let mut progress = begun;
    for thing in things {
        teller.tell(alloc, thing, &mut progress, out)?;
    }
    write_summary(&progress, out)?;
    Ok(progress.worst)
}
