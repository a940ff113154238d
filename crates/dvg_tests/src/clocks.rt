//! The clocks of frames, which `judge_timed` answers. They were worked by hand, those of examples/ by a program in Python, written apart
//! from this one; and an emulation of the board took as long, one clock of starting left out. Both are in tests/emulator.d.

mod examples;

use crate::clocks::examples::{ARCADE, OTHERS};
use crate::expecting::expect_same;
use crate::table::{Row, read_rows};
use dvg_cert::MOST_WORDS;
use dvg_check::frame_of;
use dvg_clocks::{DVG_STATES, TimedRefusal, TimedYes, Timing, judge_timed};
use dvg_make::FrameRefusal;
use dvg_text::read_cert;
use dvg_words::{ASTEROIDS, FrameImage, Machine, RomImage, SCREEN};
use std::alloc::Global;
use std::process::Abort;

/// Draws of the frame itself. `board` has the clocks, or the least and the most.
const DRAWS: &str = "\
nothing but HALT
frame B000
board clocks 3

the same, just within the limit
limit 3

the same, over it by one clock
limit 2
board refused 58 frame at 000

a jump
frame E002 B000 B000
board clocks 6

a dark draw at unknown scale
frame 9000 0001 B000
board clocks 8 to 1032

the same, just within the limit
limit 1032

the same, over it by one clock
limit 1031
board refused 58 frame at 002

the same, over it with the draw
limit 1028
board refused 58 frame at 000

a dark short draw at unknown scale
frame F005 B000
board clocks 6 to 1030

two dark draws at unknown scale, LABS, and a draw at effective scale 8
frame 0000 0000 F000 A000 0000 8000 7001 B000
board clocks 533 to 2581

effective scale 0
frame A000 0000 0000 7001 B000
board clocks 15

effective scale 9
frame A000 0000 9000 7001 B000
board clocks 1037

the same, over the limit with the draw
limit 1033
board refused 58 frame at 002

the same, over it with LABS
limit 4
board refused 58 frame at 000

the same off the screen, which is asked first
frame A000 0000 9000 7401 B000
board refused 46

effective scale 10
frame A000 1000 9000 7001 B000
board clocks 13

effective scale 15
frame A000 F000 0000 7001 B000
board clocks 13

effective scale 16, which is 0
frame A000 F000 1000 7001 B000
board clocks 15

a short draw at effective scale 9
frame A000 4000 F879 B000
board clocks 1035

a short draw at effective scale 10
frame A000 5000 F879 B000
board clocks 11";

/// Draws of called shapes.
const CALLS: &str = "\
a shape that is called twice
rom 800 9000 7001 D000
frame A000 0000 C800*2 B000
board clocks 2080

the same, over the limit by one clock
limit 2079
board refused 58 frame at 004

the same, over it with the second call
limit 1041
board refused 58 frame at 003

the same, over it with the first call
limit 1040
board refused 58 frame at 002

a shape that is called at two scales
rom 800 9000 7001 D000
frame A000 0000 C800 A000 1000 C800 B000
board clocks 1061

a tail jump
rom 800 9000 7001 E803 8000 7001 D000
frame A000 0000 C800 B000
board clocks 1564

a call of a call, four deep
rom 800 C802 D000 C804 D000 C806 D000 F879 D000
frame A000 4000 C800 B000
board clocks 1063

the scale that a shape leaves
rom 800 A000 9000 D000
frame C800 0000 7001 B000
board clocks 1044

a dark shape at unknown scale
rom 800 0000 0001 D000
frame C800 B000
board clocks 15 to 1039

the same, called twice
frame C800*2 B000
board clocks 27 to 2075

the same, over the limit by one clock
limit 2074
board refused 58 frame at 002";

/// What is answered of a row's frame on the board.
fn answer_to(rt: &impl Abort, alloc: Global, row: &Row) -> Result<TimedYes, TimedRefusal> {
    let inputs = row.inputs(rt, alloc);
    let cert = read_cert(alloc, &inputs.text).expect(rt, "a certificate");
    let rom = RomImage::from_bytes_on(Machine::Board, &inputs.rom, cert.map());
    let rom = rom.expect(rt, "a ROM");
    let budget = inputs.asked.budget.min(MOST_WORDS);
    let frame = frame_of(&inputs.frame, budget).expect(rt, "a frame");
    let timing = Timing {
        states: DVG_STATES,
        limit: row.limit.parse::<u64>().expect(rt, "a limit"),
    };
    judge_timed(alloc, &rom, &frame, budget, inputs.asked.window, &timing)
}

/// An answer, in words.
fn told(rt: &impl Abort, alloc: Global, answer: &Result<TimedYes, TimedRefusal>) -> String {
    let line = match answer {
        Ok(timed) if timed.clocks.least == timed.clocks.most => {
            format!(in alloc; "clocks {}", timed.clocks.most)
        }
        Ok(timed) => format!(in alloc; "clocks {} to {}", timed.clocks.least, timed.clocks.most),
        Err(TimedRefusal::Slow { at }) => format!(in alloc; "refused 58 frame at {at:03X}"),
        Err(TimedRefusal::Judged(FrameRefusal::Check(refusal))) => {
            format!(in alloc; "refused {}", refusal.number())
        }
        Err(TimedRefusal::Judged(_)) => format!(in alloc; "no certificate"),
    };
    line.expect(rt, "memory for a line")
}

/// Stops the test unless each frame of a table is answered as its row says.
fn time_rows(rt: &impl Abort, alloc: Global, table: &str) {
    for row in &read_rows(rt, alloc, table) {
        let line = told(rt, alloc, &answer_to(rt, alloc, row));
        expect_same(rt, &line.as_str(), &row.board, &row.lines);
    }
}

#[test]
fn counts_draws(rt: HostRuntime) {
    time_rows(&rt, rt.alloc(), DRAWS);
}

#[test]
fn counts_calls(rt: HostRuntime) {
    time_rows(&rt, rt.alloc(), CALLS);
}

#[test]
fn counts_examples(rt: HostRuntime) {
    time_rows(&rt, rt.alloc(), ARCADE);
    time_rows(&rt, rt.alloc(), OTHERS);
}

/// With each allocation refused in turn, as by `rt try --test --fail-alloc N -- clocks::needs_memory`, the answer stays, or there is none.
/// The frame calls a shape, which calls another one by a tail jump, and halts.
#[test]
fn needs_memory(rt: HostRuntime) {
    let mut words = [0; 2048];
    words[..12].copy_from_slice(&[
        0x00, 0x90, 0x01, 0x70, 0x03, 0xE8, 0x00, 0x80, 0x01, 0x70, 0x00, 0xD0,
    ]);
    let rom = RomImage::from_bytes_on(Machine::Board, &words, ASTEROIDS).expect(&rt, "a ROM");
    let frame = FrameImage::from_bytes(&[0x00, 0xA0, 0x00, 0x00, 0x00, 0xC8, 0x00, 0xB0]);
    let frame = frame.expect(&rt, "a frame");
    let timing = Timing {
        states: DVG_STATES,
        limit: 1564,
    };
    let answer = judge_timed(rt.alloc(), &rom, &frame, 100, SCREEN, &timing);
    let clocks = answer.map(|timed| (timed.clocks.least, timed.clocks.most));
    if clocks != Err(TimedRefusal::Judged(FrameRefusal::NoMemory)) {
        expect_same(&rt, &clocks, &Ok((1564, 1564)), &"the tail jump");
    }
}
