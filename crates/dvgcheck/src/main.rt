//! `dvgcheck`: checks frames and vector ROMs of Atari's Digital Vector Generator, prints the report, explains it, makes certificates,
//! tells where calls may stand and what a change of a ROM touches, judges recipes, and tells which frames are theirs.
//!
//! Thin over `dvg_cmd` and `dvg_recipe_cmd`: it reads the command line, opens the files and says how it went.
#![tactic(auto)]

ghost use Rattle.std.specs.Iterator.{IsFinite};
ghost use Rattle.std.specs.Prelude.{◌≡◌};

mod command;
mod escaping;
mod form;
mod input;
mod labels;
mod list;
mod options;
mod output;
mod over;
mod recipes;
mod records;
mod stop;
mod subcommand;
mod together;

use command::{Arguments, Asked, MakeArgs, Named, listing_by};
use dvg_cmd::{
    Counted, CountedRead, CountedWrite, Detail, KeptCertificates, Labels, MakeRunFault,
    NamedReader, Outcome, OwnCertificates, Remarking, RomMap, Rule, RunFault, ShapeStarts,
    TimedCertificates, Window, all_rules, load_cert, load_rom, make_status_of, message_of,
    run_check_in, run_comparison, run_explain_diff, run_explain_make, run_frames, run_frames_given,
    run_make_frames, run_places, run_rule, run_rules, status_of, write_make_answer,
    write_make_fault, write_message, write_text,
};
use input::{Input, Source};
use output::{Output, unwritten};
use over::{AskedOfFrames, opened, run_over};
use recipes::{judge_recipes, print};
use std::io;
use std::io::Printer;
use std::process::ExitCode;
use stop::{Stop, status_behind};
use subcommand::Task;
use together::read_frames;

fn open<F: Drop>(rt: &HostRuntime, input: Input, fault: F) -> Result<Counted<Source>, F> {
    input.open(rt).ok().map(Counted::new).ok_or(fault)
}

/// Standard output.
fn standard_output(rt: &HostRuntime) -> Counted<Printer<'_, HostRuntime>> {
    Counted::new(io::writer(rt))
}

/// Opens the files in the order ROM, frame, certificate, before any is read, and runs the check.
#[inline(never)]
fn check(rt: &HostRuntime, arguments: &Arguments) -> Result<Outcome, Stop> {
    let options = arguments.check_options()?;
    let rom = arguments.file("ROM");
    let frame = arguments.file("FRAME");
    let cert = arguments.file("CERT");
    let mut rom = open(rt, rom, RunFault::ReadRom)?;
    let mut frame = open(rt, frame, RunFault::ReadFrame)?;
    let mut cert = open(rt, cert, RunFault::ReadCert)?;
    Ok(run_check_in(
        rt.alloc(),
        &mut rom,
        &mut cert,
        &mut frame,
        &options,
        arguments.detail,
        &mut standard_output(rt),
    )?)
}

/// Reads the ROM and then all frames, and judges these with accounts, each of which knows where the shapes of the other frames begin.
#[inline(never)]
fn explain_together(
    rt: &HostRuntime,
    asked: &Asked,
    named: Vec<Named>,
) -> Result<Outcome, RunFault> {
    let rom = load_rom(&mut open(rt, asked.rom, RunFault::ReadRom)?)?;
    let alone = own_certificates(asked, rom.as_slice(), asked.map, None);
    let mut starts = ShapeStarts::new(rt.alloc())?;
    let frames = read_frames(rt, named, asked.options.start, &alone, &mut starts)?;
    judge_by_own(rt, asked, rom.as_slice(), Some(&starts), frames.into_iter())
}

/// Judges frames by certificates of their own over this ROM, with their clocks, if these are asked for.
#[inline(never)]
fn judge_by_own<'a, R: CountedRead + Drop, I: Iterator<Item = NamedReader<R>> + Drop>(
    rt: &HostRuntime,
    asked: &Asked<'a>,
    rom: &'a [u8],
    others: Option<&'a ShapeStarts>,
    frames: I,
) -> Result<Outcome, RunFault>
    requires can { I.can_next frames }
    requires ends { IsFinite (I.remaining frames) }
{
    let mut out = standard_output(rt);
    let start = asked.options.start;
    let own = own_certificates(asked, rom, asked.map, others);
    let remarking = Remarking {
        own: own_certificates(asked, rom, asked.map, others),
        labels: asked.labels,
    };
    let listing = listing_by(asked.listing, &remarking);
    let detail = listing.detail.of_answer();
    match asked.clocks {
        Some(clocks) => {
            let mut judge = TimedCertificates::new(rt.alloc(), own, clocks, detail);
            run_frames(rt.alloc(), &mut judge, start, frames, listing, &mut out)
        }
        None => {
            let mut judge = KeptCertificates::new(rt.alloc(), own, detail);
            run_frames(rt.alloc(), &mut judge, start, frames, listing, &mut out)
        }
    }
}

/// The judge by certificates that are made over this ROM, beside other frames whose shapes begin here.
fn own_certificates<'a>(
    asked: &Asked,
    rom: &'a [u8],
    map: RomMap,
    others: Option<&'a ShapeStarts>,
) -> OwnCertificates<'a>
    ensures machine { result.machine ≡ asked.now.options.machine }
    ensures rom { result.rom.now ≡ rom.now }
    ensures map { result.map ≡ map }
    ensures budget { result.budget ≡ asked.now.options.budget }
    ensures window { result.window ≡ asked.now.options.window }
{
    OwnCertificates {
        machine: asked.options.machine,
        rom,
        map,
        budget: asked.options.budget,
        window: asked.options.window,
        others,
    }
}

impl<'a> AskedOfFrames for Asked<'a> {
    /// Reads the ROM, and the certificate if one is given, and judges frames.
    #[inline(never)]
    fn run<R: CountedRead + Drop, I: Iterator<Item = NamedReader<R>> + Drop>(
        &self,
        rt: &HostRuntime,
        frames: I,
    ) -> Result<Outcome, RunFault> {
        let rom = load_rom(&mut open(rt, self.rom, RunFault::ReadRom)?)?;
        let Some(cert) = self.cert else {
            return judge_by_own(rt, self, rom.as_slice(), None, frames);
        };
        let cert = load_cert(rt.alloc(), &mut open(rt, cert, RunFault::ReadCert)?)?;
        let map = match &cert {
            Ok(cert) => cert.map(),
            Err(_) => self.map,
        };
        let remarking = Remarking {
            own: own_certificates(self, rom.as_slice(), map, None),
            labels: self.labels,
        };
        run_frames_given(
            rt.alloc(),
            rom.as_slice(),
            &cert,
            &self.options,
            frames,
            listing_by(self.listing, &remarking),
            &mut standard_output(rt),
        )
    }

    /// Does so with the frames of the command line. Accounts of several frames by certificates of their own come when all frames are read.
    fn run_named(&self, rt: &HostRuntime, frames: Vec<Named>) -> Result<Outcome, RunFault> {
        let has_account = matches!(self.listing.detail, Some(Detail::Account(_)));
        if self.cert.is_none() && has_account && frames.len() > 1 {
            return explain_together(rt, self, frames);
        }
        self.run(rt, frames.into_iter().map(|frame| opened(rt, frame)))
    }
}

/// The ROM and the frames, opened in this order, before any is read.
fn open_all(
    rt: &HostRuntime,
    args: &MakeArgs,
) -> Result<(Counted<Source>, Vec<Counted<Source>>), MakeRunFault> {
    let rom = open(rt, args.rom, MakeRunFault::ReadRom)?;
    let mut frames = Vec::new(rt.alloc());
    for frame in &args.frames {
        frames.push(open(rt, frame.input, MakeRunFault::ReadFrame)?)?;
    }
    Ok((rom, frames))
}

/// Opens the ROM and the frames, and then the file for the certificate, if one was named, and runs the maker. The file has the certificate
/// in the end, or, on any fault, what was there.
#[inline(never)]
fn make(rt: &HostRuntime, args: &MakeArgs, path: Option<&str>) -> Result<(), MakeRunFault> {
    let (mut rom, mut frames) = open_all(rt, args)?;
    let Some(path) = path else {
        return run_maker(rt, args, &mut rom, &mut frames, &mut standard_output(rt));
    };
    let file = Output::open(rt, path).map_err(|error| unwritten::<MakeRunFault>(&error))?;
    let made = run_maker(rt, args, &mut rom, &mut frames, &mut file.counted());
    file.end(rt, made.is_ok())
        .map_err(|error| unwritten::<MakeRunFault>(&error))?;
    made
}

/// Runs the maker over open files.
fn run_maker<W: CountedWrite>(
    rt: &HostRuntime,
    args: &MakeArgs,
    rom: &mut Counted<Source>,
    frames: &mut [Counted<Source>],
    out: &mut W,
) -> Result<(), MakeRunFault> {
    run_make_frames(
        args.machine,
        rt.alloc(),
        rom,
        args.map,
        &args.roots,
        frames,
        out,
    )
}

/// Opens the ROM and the frames, and tells at which places calls of the shapes break no rule on this window.
#[inline(never)]
fn places(rt: &HostRuntime, args: &MakeArgs, window: Window) -> Result<(), MakeRunFault> {
    let (mut rom, mut frames) = open_all(rt, args)?;
    run_places(
        args.machine,
        rt.alloc(),
        &mut rom,
        args.map,
        &args.roots,
        &mut frames,
        window,
        &mut standard_output(rt),
    )
}

/// Opens both ROMs and the frames, and tells what the change from the one ROM to the other touches.
#[inline(never)]
fn diff(rt: &HostRuntime, args: &MakeArgs, other: Input) -> Result<bool, MakeRunFault> {
    let (mut rom, mut frames) = open_all(rt, args)?;
    let mut other = open(rt, other, MakeRunFault::ReadRom)?;
    let mut names = Vec::new(rt.alloc());
    for frame in &args.frames {
        names.push(String::from_str(rt.alloc(), frame.name.as_str())?)?;
    }
    run_comparison(
        args.machine,
        rt.alloc(),
        &mut rom,
        &mut other,
        args.map,
        &args.roots,
        &mut frames,
        &names,
        &mut standard_output(rt),
    )
}

/// Opens both dumps, the good one first, and tells how they differ.
#[inline(never)]
fn compare_dumps(
    rt: &HostRuntime,
    arguments: &Arguments,
    map: RomMap,
) -> Result<bool, MakeRunFault> {
    let rom = arguments.file("ROM");
    let other = arguments.file("OTHER");
    let mut rom = open(rt, rom, MakeRunFault::ReadRom)?;
    let mut other = open(rt, other, MakeRunFault::ReadRom)?;
    run_explain_diff(
        rt.alloc(),
        &mut rom,
        &mut other,
        map,
        arguments.labels,
        &mut standard_output(rt),
    )
}

/// Opens the files as [`make`] does, writes the maker's answer with its account, and answers the exit status.
#[inline(never)]
fn explain_make(
    rt: &HostRuntime,
    args: &MakeArgs,
    labels: Option<&Labels>,
) -> Result<u8, MakeRunFault> {
    let (mut rom, mut frames) = open_all(rt, args)?;
    let answer = run_explain_make(
        args.machine,
        rt.alloc(),
        &mut rom,
        args.map,
        &args.roots,
        &mut frames,
        labels,
    )?;
    let name = name_of(&args.frames, answer.frame());
    let end = write_make_answer(name, &answer, &mut standard_output(rt));
    Ok(tell_end(rt, &end))
}

/// Writes the text of this rule, or without one the table of all rules.
#[inline(never)]
fn rules(rt: &HostRuntime, rule: Option<Rule>) -> Result<(), RunFault> {
    let mut out = standard_output(rt);
    match rule {
        Some(rule) => run_rule(rt.alloc(), &rule, &mut out),
        None => {
            let rules = all_rules(rt.alloc())?;
            run_rules(rt.alloc(), &rules, &mut out)
        }
    }
}

/// Says a message on standard error, by one write with its LF, and answers this exit status. Where it can't be written either, the status
/// alone tells.
fn say(rt: &HostRuntime, message: &str, status: u8) -> u8 {
    let _ = write_message(message, &mut Counted::new(rt.stderr()));
    status
}

/// Tells why a run ended, and answers the exit status.
#[inline(never)]
fn tell(rt: &HostRuntime, stop: &Stop) -> u8 {
    match stop {
        Stop::Help(text) => {
            let written = write_text(text.as_str(), &mut standard_output(rt));
            tell_end(rt, &written.map(|()| Outcome::Accepted))
        }
        Stop::Usage(text) => {
            let _ = write_text(text.as_str(), &mut Counted::new(rt.stderr()));
            2
        }
        Stop::Line(line) => say(rt, line.as_str(), 2),
        Stop::Misuse(line) => say(rt, line, 2),
        Stop::Unreadable(line) => say(rt, line, status_of(&Ok(Outcome::Unread))),
        Stop::Fault { fault, frames } => {
            say(rt, message_of(fault), status_behind(*fault, *frames))
        }
    }
}

/// Tells how a run ended, by a fault's message and the exit status.
fn tell_end(rt: &HostRuntime, end: &Result<Outcome, RunFault>) -> u8 {
    if let Err(fault) = end {
        return say(rt, message_of(fault), status_of(end));
    }
    status_of(end)
}

/// The name of a frame, or none where no frame is meant.
fn name_of<'a>(frames: &'a [Named], frame: Option<usize>) -> &'a str {
    match frames.get(frame.unwrap_or(frames.len())) {
        Some(frame) => frame.name.as_str(),
        None => "",
    }
}

/// Tells how a run of the maker ended, by a fault's line, which begins with the name of its frame if it is one's, and the exit status.
fn tell_make(rt: &HostRuntime, frames: &[Named], end: Result<u8, MakeRunFault>) -> u8 {
    match end {
        Ok(status) => status,
        Err(fault) => {
            let name = name_of(frames, fault.frame());
            let _ = write_make_fault(name, &fault, &mut Counted::new(rt.stderr()));
            make_status_of(&Err(fault))
        }
    }
}

/// Tells how two dumps differ; the status is 1 if they do.
fn explain_diff(rt: &HostRuntime, arguments: &Arguments) -> Result<u8, Stop> {
    arguments.one_standard_input()?;
    let map = arguments.map()?;
    let end = compare_dumps(rt, arguments, map).map(u8::from);
    Ok(tell_make(rt, &[], end))
}

/// Runs a task that certificates are made for; the status of `diff` is 1 if something is touched.
fn run_maker_task(rt: &HostRuntime, arguments: &Arguments) -> Result<u8, Stop> {
    let args = arguments.make()?;
    let end = match (arguments.task, arguments.detail) {
        (Task::Places, _) => places(rt, &args, arguments.window()?).map(|()| 0),
        (Task::Diff, _) => diff(rt, &args, arguments.file("OTHER")).map(u8::from),
        (_, Detail::Line) => make(rt, &args, arguments.output()).map(|()| 0),
        (_, Detail::Account(labels)) => explain_make(rt, &args, labels),
    };
    Ok(tell_make(rt, &args.frames, end))
}

/// Runs a task, and answers the exit status. All arguments are read before any file but the labels is opened.
#[inline(never)]
fn run_task(rt: &HostRuntime, arguments: &Arguments) -> Result<u8, Stop> {
    let outcome = match arguments.task {
        Task::Diff if arguments.detail.has_account() => return explain_diff(rt, arguments),
        Task::Frames => run_over(rt, arguments, &arguments.frames()?)?,
        Task::Check => check(rt, arguments)?,
        Task::Make | Task::Places | Task::Diff => return run_maker_task(rt, arguments),
        Task::Recipe => match arguments.printed()? {
            Some(recipe) => print(rt, arguments, &recipe)?,
            None => judge_recipes(rt, arguments)?,
        },
        Task::Belongs => run_over(rt, arguments, &arguments.belongs()?)?,
        Task::Rules => {
            rules(rt, arguments.rule()?)?;
            Outcome::Accepted
        }
    };
    Ok(status_of(&Ok(outcome)))
}

/// Runs what the words of the command line ask for, and answers the exit status.
fn run(rt: &HostRuntime) -> Result<u8, Stop> {
    let words = command::words(rt)?;
    let arguments = Arguments::parsed(rt, &words)?;
    let labels = arguments.load_labels()?;
    let arguments = arguments.with_labels(labels.as_ref());
    run_task(rt, &arguments)
}

fn main(rt: HostRuntime) -> ExitCode {
    let status = match run(&rt) {
        Ok(status) => status,
        Err(stop) => tell(&rt, &stop),
    };
    ExitCode::from(status)
}
