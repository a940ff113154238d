//! The answer to one frame that a reader holds, and its line.

ghost use Rattle.std.specs.Prelude.{◌≡◌, ◌≤◌, None, take, IfOk, OnOk, is_err};
ghost use Rattle.dvg_words.specs.Memory.{words_of};
ghost use Rattle.dvg_text.specs.Devices.{count_after};
ghost use Rattle.dvg_cmd.specs.Detail.{IsBehind};
ghost use Rattle.dvg_cmd.specs.Remarking.{IsBehindFrame, TellsCall, answer_detail};
ghost use Rattle.dvg_cmd.specs.declared.detail.Detail.TheVariants as details;
ghost use Rattle.dvg_cmd.specs.declared.remarking.FrameDetail.TheVariants as frame_details;
ghost use Rattle.dvg_cmd.specs.Runs.{MOST_FRAME_READ, IsReadTo};
ghost use Rattle.dvg_cmd.specs.Frames.{JudgesAlike, ReadsFrame, AnswersFrame, is_unread};

use crate::called::{Called, called_by, name_of};
use crate::detail::{Behind, Detail};
use crate::frame_judge::FrameJudge;
use crate::reading::read_prefix;
use crate::remarking::{BehindFrame, FrameDetail};
use crate::start::start_at;
use dvg_account::{PlainWhy, address_text, plain_text};
use dvg_labels::Labels;
use dvg_spelling::{Answer, FrameAnswer, answer_number};
use dvg_text::CountedRead;
use dvg_words::Machine;
use std::alloc::Global;
use std::io;

/// How many bytes are read of a frame at most: one past its limit, which is 2048.
pub const FRAME_READ: usize = 2049;

/// Fills a buffer with the bytes of a frame, up to one past its limit, with the jump to its start in place of word 000, if one is given, and
/// answers how many these are. Fails as the reader does.
pub fn read_started<R: CountedRead>(
    frame: &mut R,
    start: Option<u16>,
    buffer: &mut [u8; FRAME_READ],
) -> io::Result<usize>
    ensures within { IfOk result (λ len. len ≤ MOST_FRAME_READ) }
    ensures bytes { IfOk result (λ len. ReadsFrame (R.remaining frame.old) start (take len buffer.new)) }
    ensures read { OnOk result (IsReadTo MOST_FRAME_READ (R.remaining frame.old) (R.remaining frame.new)) }
    ensures count { R.failures frame.new ≡ count_after (is_err result) (R.failures frame.old) }
{
    let len = read_prefix(frame, buffer)?;
    start_at(&mut buffer[..len], start);
    Ok(len)
}

/// What the detail asks for behind the line of an answer with this number, for which no item was looked at.
pub fn plain_account(
    machine: Machine,
    alloc: Global,
    number: u8,
    why: PlainWhy,
    detail: Detail,
) -> Behind
    ensures { IsBehind detail.entry result }
{
    match detail {
        Detail::Line => Ok(None),
        Detail::Account(labels) => plain_text(machine, alloc, number, why, labels).map(Some),
    }
}

/// What the detail asks for behind the line of a frame that can't be opened or read.
pub fn unread_account(machine: Machine, alloc: Global, detail: Detail) -> Behind
    ensures { IsBehind detail.entry result }
{
    plain_account(machine, alloc, 71, PlainWhy::Nothing, detail)
}

/// What the detail asks for behind the line of the answer to a frame of this name, behind which the judge's own detail is this.
fn behind_answer(
    alloc: Global,
    machine: Machine,
    name: &str,
    frame: &[u8],
    answer: &FrameAnswer,
    behind: Behind,
    detail: FrameDetail,
) -> BehindFrame
    requires { IsBehind (answer_detail detail) behind }
    ensures behind { IsBehindFrame detail.entry answer.now result }
    ensures called { TellsCall machine (words_of frame.now) answer.now result }
{
    match (detail, answer) {
        (FrameDetail::Remarks(remarking), Answer::Judged(Ok(_)) | Answer::Timed(_)) => {
            remarking.on(alloc, name, frame)
        }
        (FrameDetail::Answer(Detail::Account(labels)), _) => {
            behind_call(alloc, machine, frame, answer, behind, labels)
        }
        _ => BehindFrame::Answer(behind, None),
    }
}

/// An account. If the frame is refused because of a call, the called shape comes with it. If there is no memory to name the shape, there
/// is no account either.
fn behind_call(
    alloc: Global,
    machine: Machine,
    frame: &[u8],
    answer: &FrameAnswer,
    behind: Behind,
    labels: Option<&Labels>,
) -> BehindFrame
    requires { IsBehind (details.Account None) behind }
    ensures behind { IsBehindFrame (frame_details.Answer (details.Account None)) answer.now result }
    ensures called { TellsCall machine (words_of frame.now) answer.now result }
{
    let Some(shape) = called_by(machine, frame, answer) else {
        return BehindFrame::Answer(behind, None);
    };
    match address_text(alloc, shape, labels) {
        Ok(text) => BehindFrame::Answer(
            behind,
            Some(Called {
                number: answer_number(answer),
                shape,
                name: name_of(text.as_str()),
            }),
        ),
        Err(error) => BehindFrame::Answer(Err(error), None),
    }
}

/// Reads a frame of this name and judges it: the answer, and what the detail asks for behind its line.
pub fn answer_of<J: FrameJudge, R: CountedRead>(
    alloc: Global,
    judge: &mut J,
    start: Option<u16>,
    name: &str,
    frame: &mut R,
    detail: FrameDetail,
) -> (FrameAnswer, BehindFrame)
    requires { J.valid judge.old (answer_detail detail) }
    ensures answers { AnswersFrame (J.judging judge.old)
        start (R.remaining frame.old) (R.remaining frame.new) result.0 }
    ensures behind { IsBehindFrame detail.entry result.0 result.1 }
    ensures count { R.failures frame.new ≡ count_after (is_unread result.0) (R.failures frame.old) }
    ensures valid { J.valid judge.new (answer_detail detail.entry) }
    ensures same { JudgesAlike (J.judging judge.old) (J.judging judge.new) }
{
    let mut buffer = [0; FRAME_READ];
    match read_started(frame, start, &mut buffer) {
        Ok(len) => {
            let read = &buffer[..len];
            let (answer, behind) = judge.answer(alloc, read, detail.of_answer());
            let machine = judge.machine();
            let behind = behind_answer(alloc, machine, name, read, &answer, behind, detail);
            (answer, behind)
        }
        Err(_) => (
            Answer::Unread,
            BehindFrame::Answer(
                unread_account(judge.machine(), alloc, detail.of_answer()),
                None,
            ),
        ),
    }
}
