//! What the summary of a run over frames tells.

ghost use Rattle.std.specs.Prelude.{◌≡◌, ◌∷◌, [], string_bytes};
ghost use Rattle.dvg_spelling.specs.Tally.{summary_text};
ghost use Rattle.dvg_cmd.specs.Remarking.{called_with, remarked_with, remarks_texts, with_remarks};
ghost use Rattle.dvg_cmd.specs.Most.{most_texts, with_frame};
ghost use Rattle.dvg_cmd.specs.Sent.{Writes};
ghost use Rattle.dvg_cmd.specs.SeveralFrames.{no_frames, summary_texts, summed_with};

use crate::called::CalledTally;
use crate::most::MostTaken;
use crate::remarking::BehindFrame;
use crate::telling::Summary;
use dvg_account::FrameRemark;
use dvg_spelling::{Answer, FrameAnswer, RemarkTally, Tally, remarks_line_of, summary_of};
use dvg_text::{CountedWrite, WriteFault, write_lines};
use std::alloc::Global;

/// What the summary will tell of the frames so far.
#[derive(Drop)]
pub struct FramesSummary {
    /// How many lines say what of them.
    pub tally: Tally,
    /// The frames that take most, of those whose lines tell clocks.
    pub most: Option<MostTaken>,
    /// How many remarks of each kind there are on them, if the run looks for remarks.
    pub remarks: Option<RemarkTally>,
    /// Where accounts are written: how many are refused by each number at calls of each shape.
    pub called: CalledTally,
}

/// With a frame of this name and answer.
fn add_to_most(alloc: Global, most: &mut Option<MostTaken>, name: String, answer: &FrameAnswer)
    ensures { most.new ≡ with_frame most.old (string_bytes name) answer.now }
{
    if let Answer::Timed(timed) = answer {
        match most {
            Some(most) => most.add(name, timed),
            None => *most = Some(MostTaken::of(alloc, name, timed)),
        }
    }
}

/// Counts each of these remarks.
fn count_remarks(tally: &mut RemarkTally, found: &[FrameRemark])
    ensures { tally.new ≡ with_remarks found.now tally.old }
{
    for remark in found {
        tally.add(remark.kind);
    }
}

/// With what stands behind the line of a frame.
fn add_remarks(tally: &mut Option<RemarkTally>, behind: &BehindFrame)
    ensures { tally.new ≡ remarked_with tally.old behind.now }
{
    if let BehindFrame::Remarks(Ok(remarks)) = behind {
        let mut counted = tally.unwrap_or(RemarkTally::new());
        count_remarks(&mut counted, remarks.found.as_slice());
        *tally = Some(counted);
    }
}

/// Counts the shape that a refused frame calls, if it comes with the account.
fn add_called(tally: &mut CalledTally, behind: BehindFrame)
    ensures { tally.new ≡ called_with tally.old behind }
{
    match behind {
        BehindFrame::Answer(_behind, called) => {
            if let Some(called) = called {
                tally.add(called);
            }
        }
        BehindFrame::Remarks(_remarks) => {}
    }
}

/// Writes the line that tells how many remarks there are, if remarks were looked for.
fn write_remarks<W: CountedWrite>(
    tally: &Option<RemarkTally>,
    out: &mut W,
) -> Result<(), WriteFault>
    ensures { Writes W.contents W.whole_writes W.failures out.old out.new result (remarks_texts tally.now) }
{
    match tally {
        Some(tally) => {
            let line = remarks_line_of(tally);
            write_lines(line.as_slice(), &[], &[], out)
        }
        None => Ok(()),
    }
}

/// Writes the lines of the frames that take most, each by one write if it fits one.
fn write_most<W: CountedWrite>(most: &Option<MostTaken>, out: &mut W) -> Result<(), WriteFault>
    ensures { Writes W.contents W.whole_writes W.failures out.old out.new result (most_texts most.now) }
{
    match most {
        Some(most) => most.write(out),
        None => Ok(()),
    }
}

/// Writes the line that tells a tally.
fn write_tally<W: CountedWrite>(tally: &Tally, out: &mut W) -> Result<(), WriteFault>
    ensures { Writes W.contents W.whole_writes W.failures out.old out.new result (summary_text tally.now ∷ []) }
{
    let line = summary_of(tally);
    write_lines(line.as_slice(), &[], &[], out)
}

impl FramesSummary {
    /// Of no frame.
    pub fn new() -> FramesSummary
        ensures { result ≡ no_frames }
    {
        FramesSummary {
            tally: Tally::new(),
            most: None,
            remarks: None,
            called: CalledTally::new(),
        }
    }

    /// Takes in a frame of this name, whose line tells this answer, with this behind it, whether it is written or not.
    pub fn add(&mut self, alloc: Global, name: String, answer: &FrameAnswer, behind: BehindFrame)
        ensures { self.new ≡ summed_with self.old (record { name = string_bytes name; answer = (answer.now, behind) }) }
    {
        self.tally.add(answer);
        add_remarks(&mut self.remarks, &behind);
        add_called(&mut self.called, behind);
        add_to_most(alloc, &mut self.most, name, answer);
    }
}

impl Summary for FramesSummary {
    ghost texts = { summary_texts };

    /// The lines of the frames that take most, if lines tell clocks, the line that tells how many remarks there are, if remarks were
    /// looked for, and the line that tells the tally.
    fn write<W: CountedWrite>(&self, out: &mut W) -> Result<(), WriteFault> {
        write_most(&self.most, out)?;
        write_remarks(&self.remarks, out)?;
        self.called.write(out)?;
        write_tally(&self.tally, out)
    }
}
