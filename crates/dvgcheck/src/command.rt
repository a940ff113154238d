//! The command line.

use crate::escaping::{escaped, marked, shown};
use crate::form::Form;
use crate::input::Input;
use crate::labels::load_labels;
use crate::stop::Stop;
use crate::subcommand::{Task, command, syntax_named};
use clap::ArgMatches;
use clap::error::ErrorKind;
use dvg_cmd::{
    ASTEROIDS, CLIPPED, CheckOptions, ClockOptions, DVG_STATES, Detail, FrameDetail, FrameOptions,
    Key, Labels, LineClocks, Lines, Listing, Machine, Mode, NameEnd, RAM_WORDS, RecordLength,
    Remarking, RomMap, Rule, RunFault, SCREEN, Timing, Unnamed, Window, limit_of, map_of,
    record_length_of, root_by, rule_of, start_of, window_of,
};
use dvg_recipe_cmd::{RecipeAsked, RecipeOptions};
use std::alloc::{AllocError, Global};
use std::env;

/// A file to read, and its name as lines show it.
#[derive(Drop)]
pub struct Named<'a> {
    pub input: Input<'a>,
    pub name: String,
}

/// What is asked of frames, whatever frames they are, and what is written of them.
#[derive(Drop)]
pub struct Asked<'a> {
    pub rom: Input<'a>,
    /// Where the ROM lies, unless a certificate says so.
    pub map: RomMap,
    /// The certificate for all frames, or `None` where one is made for each.
    pub cert: Option<Input<'a>>,
    /// What is asked of the frames' clocks, if anything is.
    pub clocks: Option<ClockOptions>,
    pub options: FrameOptions,
    pub labels: Option<&'a Labels>,
    /// With the detail of answers, or `None` where remarks on accepted frames are wanted in their place.
    pub listing: Listing<Option<Detail<'a>>>,
}

/// What is written of frames, where remarks are found so.
pub fn listing_by<'a>(
    wanted: Listing<Option<Detail<'a>>>,
    remarking: &'a Remarking<'a>,
) -> Listing<FrameDetail<'a>> {
    Listing {
        detail: match wanted.detail {
            Some(detail) => FrameDetail::Answer(detail),
            None => FrameDetail::Remarks(remarking),
        },
        lines: wanted.lines,
        summary: wanted.summary,
    }
}

/// What `make`, `places` and `diff` are about.
#[derive(Drop)]
pub struct MakeArgs<'a> {
    pub machine: Machine,
    pub rom: Input<'a>,
    pub map: RomMap,
    pub roots: Vec<(u16, Key)>,
    pub frames: Vec<Named<'a>>,
}

/// What `belongs` asks of frames, whatever frames they are, and what is written of them.
#[derive(Clone, Copy)]
pub struct BelongsAsked<'a> {
    pub rom: Input<'a>,
    pub map: RomMap,
    pub recipe: Input<'a>,
    /// What names of the recipe may stand for, besides those that it defines.
    pub labels: Option<&'a Labels>,
    pub listing: Listing<Detail<'a>>,
}

/// The words of the command line, the program's name first.
pub fn words(rt: &HostRuntime) -> Result<Vec<String>, Stop> {
    match env::args(rt) {
        Ok(words) => Ok(words.collect(rt.alloc())?),
        Err(error) => Err(Stop::unread(&error, Stop::Misuse(UNREAD_WORDS))),
    }
}

/// What is said of a command line that can't be read.
const UNREAD_WORDS: &str = "dvgcheck: cannot read the command line";

/// The arguments that name files to read.
const FILES: [&str; 10] = [
    "ROM", "OTHER", "CERT", "RECIPE", "FRAME", "frame", "cert", "list", "labels", "print",
];

/// How many words a frame may take if `--budget` does not say.
const USUAL_BUDGET: u32 = 20_000;

/// What the command line asks for: a task, with `explain` before it or without, and its arguments as `clap` takes them. An argument that
/// the task does not take was not given.
#[derive(Drop)]
pub struct Arguments<'a> {
    rt: &'a HostRuntime,
    pub task: Task,
    /// What is written of an answer.
    pub detail: Detail<'a>,
    matches: ArgMatches<'a>,
    pub labels: Option<&'a Labels>,
}

impl<'a> Arguments<'a> {
    /// What `clap` makes of the words.
    pub fn parsed(rt: &'a HostRuntime, words: &'a [String]) -> Result<Arguments<'a>, Stop> {
        let alloc = rt.alloc();
        let Some((detail, syntax, rest)) = syntax_named(words) else {
            return Err(refused(alloc, words)?);
        };
        match syntax.command_for(alloc, rest)?.try_get_matches_from(rest) {
            Ok(matches) => Ok(Arguments {
                rt,
                task: syntax.task,
                detail,
                matches,
                labels: None,
            }),
            Err(error) if error.kind() == ErrorKind::OutOfMemory => Err(RunFault::Memory.into()),
            Err(_) => Err(refused(alloc, words)?),
        }
    }

    /// The labels of the file that is given. It is read and closed before another is opened, since roots and starts may be named by them.
    pub fn load_labels(&self) -> Result<Option<Labels>, Stop> {
        match self.matches.get_str("labels") {
            Some(path) => Ok(Some(load_labels(self.rt, Input::named(self.rt, path))?)),
            None => Ok(None),
        }
    }

    /// The same arguments, with these labels.
    pub fn with_labels(self, labels: Option<&'a Labels>) -> Arguments<'a> {
        let detail = match self.detail {
            Detail::Line => Detail::Line,
            Detail::Account(_) => Detail::Account(labels),
        };
        Arguments {
            labels,
            detail,
            ..self
        }
    }

    fn machine(&self) -> Machine {
        if self.matches.get_flag("board") {
            Machine::Board
        } else {
            Machine::Profile
        }
    }

    /// What a word spells, if it has this form.
    fn spelled<T>(&self, form: Form, word: &str, value: Option<T>) -> Result<T, Stop> {
        match value {
            Some(value) => Ok(value),
            None => Err(Stop::saying(form.message(self.rt.alloc(), word))),
        }
    }

    /// What may be lit: the zone that a board clips, or the window that is given.
    pub fn window(&self) -> Result<Window, Stop> {
        if self.matches.get_flag("clip") {
            return Ok(CLIPPED);
        }
        match self.matches.get_str("window") {
            Some(word) => self.spelled(Form::Window, word, window_of(word)),
            None => Ok(SCREEN),
        }
    }

    /// How many words a frame may take at most: what `--budget` says, or the usual number.
    fn budget(&self) -> u32 {
        self.matches
            .get_one::<u32>("budget")
            .unwrap_or(USUAL_BUDGET)
    }

    /// Where the ROM lies: what `--rom` says, or where the ROM of Asteroids lies.
    pub fn map(&self) -> Result<RomMap, Stop> {
        match self.matches.get_str("rom") {
            Some(word) => self.spelled(Form::Map, word, map_of(word)),
            None => Ok(ASTEROIDS),
        }
    }

    /// The start that a word spells: a word address, or else by the labels one that stands in vector RAM.
    fn start_of_word(&self, word: &str) -> Result<u16, Stop> {
        let why = match (start_of(word), self.labels) {
            (Some(start), _) => return Ok(start),
            (None, None) => return self.spelled(Form::Start, word, None),
            (None, Some(labels)) => match labels.address_of(word.as_bytes()) {
                Ok(start) if start < RAM_WORDS => return Ok(start),
                Ok(_) => Unnamed::Unknown,
                Err(why) => why,
            },
        };
        Err(Stop::saying(Form::Start.label_message(self.rt.alloc(), why, word)))
    }

    fn start(&self) -> Result<Option<u16>, Stop> {
        match self.matches.get_str("start") {
            Some(word) => Ok(Some(self.start_of_word(word)?)),
            None => Ok(None),
        }
    }

    /// The root that a word spells, by the labels, if there are any.
    fn root_of_word(&self, word: &str) -> Result<(u16, Key), Stop> {
        match root_by(self.labels, word) {
            Ok(root) => self.spelled(Form::Root, word, root),
            Err(why) => Err(Stop::saying(Form::Root.label_message(self.rt.alloc(), why, word))),
        }
    }

    /// What is asked of the clocks of frames, if anything is.
    fn clocks(&self) -> Result<Option<ClockOptions>, Stop> {
        let line = if self.matches.get_flag("clocks") {
            LineClocks::Told
        } else {
            LineClocks::LeftOut
        };
        let limit = match (self.matches.get_str("within"), line) {
            (Some(word), _) => self.spelled(Form::Within, word, limit_of(word))?,
            (None, LineClocks::Told) => u64::MAX,
            (None, LineClocks::LeftOut) => return Ok(None),
        };
        let timing = Timing {
            states: DVG_STATES,
            limit,
        };
        Ok(Some(ClockOptions { timing, line }))
    }

    /// The file that this argument names.
    pub fn file(&self, name: &str) -> Input<'a> {
        Input::named(self.rt, self.matches.get_str(name).unwrap_or(""))
    }

    /// The files that this argument names, each with the name that lines show.
    pub fn files(&self, name: &str) -> Result<Vec<Named<'a>>, Stop> {
        let mut files = Vec::new(self.rt.alloc());
        for path in self.matches.get_strs(name).unwrap_or(&[]) {
            let input = Input::named(self.rt, path);
            let name = shown(self.rt.alloc(), path)?;
            files.push(Named { input, name })?;
        }
        Ok(files)
    }

    /// Refuses arguments if more than one of the files that they name is standard input.
    pub fn one_standard_input(&self) -> Result<(), Stop> {
        let mut given = 0usize;
        for name in FILES {
            let files = self.matches.get_strs(name).unwrap_or(&[]);
            given = given.saturating_add(files.iter().filter(|path| **path == "-").count());
        }
        if given > 1 {
            return Err(Stop::Misuse("dvgcheck: standard input is given twice"));
        }
        Ok(())
    }

    /// The length of the records that the frames are, if they are records.
    pub fn record_length(&self) -> Result<Option<RecordLength>, Stop> {
        match self.matches.get_str("records") {
            Some(word) => { Ok(Some(self.spelled(Form::Records, word, record_length_of(word))?)) }
            None => Ok(None),
        }
    }

    /// The list that names the frames, if one does, and what ends its names.
    pub fn list(&self) -> Option<(Input<'a>, NameEnd)> {
        let list = Input::named(self.rt, self.matches.get_str("list")?);
        let end = if self.matches.get_flag("null") {
            NameEnd::Nul
        } else {
            NameEnd::Line
        };
        Some((list, end))
    }

    /// What is written of frames, with this detail. `only_bad` is the option that leaves out the lines of the good ones.
    fn listing<D>(&self, detail: D, only_bad: &str) -> Listing<D> {
        Listing {
            detail,
            lines: if self.matches.get_flag(only_bad) {
                Lines::NotAccepted
            } else {
                Lines::All
            },
            summary: self.matches.get_flag("summary"),
        }
    }

    /// What `frames` asks of frames.
    pub fn frames(&self) -> Result<Asked<'a>, Stop> {
        self.one_standard_input()?;
        let map = self.map()?;
        let window = self.window()?;
        let options = FrameOptions {
            machine: self.machine(),
            start: self.start()?,
            budget: self.budget(),
            window,
        };
        let wanted = Some(self.detail).filter(|_| !self.matches.get_flag("remarks"));
        let cert = self.matches.get_str("cert");
        Ok(Asked {
            rom: self.file("ROM"),
            map,
            cert: cert.map(|cert| Input::named(self.rt, cert)),
            clocks: self.clocks()?,
            options,
            labels: self.labels,
            listing: self.listing(wanted, "only-refused"),
        })
    }

    /// How `check` is to judge.
    pub fn check_options(&self) -> Result<CheckOptions, Stop> {
        self.one_standard_input()?;
        Ok(CheckOptions {
            machine: self.machine(),
            budget: self.budget(),
            window: self.window()?,
            mode: if self.matches.get_flag("exact") {
                Mode::Exact
            } else {
                Mode::Bound
            },
        })
    }

    /// What `make`, `places` and `diff` are about.
    pub fn make(&self) -> Result<MakeArgs<'a>, Stop> {
        let words = self.matches.get_strs("ROOT").unwrap_or(&[]);
        if words.is_empty() && !self.matches.contains_id("frame") {
            let line = "dvgcheck: no root: a ROOT, as 800/0, or --frame FRAME wanted";
            return Err(Stop::Misuse(line));
        }
        self.one_standard_input()?;
        let map = self.map()?;
        let mut roots = Vec::new(self.rt.alloc());
        for word in words {
            roots.push(self.root_of_word(word)?)?;
        }
        Ok(MakeArgs {
            machine: self.machine(),
            rom: self.file("ROM"),
            map,
            roots,
            frames: self.files("frame")?,
        })
    }

    /// The path of the file for what is made, or `None` for standard output.
    pub fn output(&self) -> Option<&'a str> {
        self.matches.get_str("output").filter(|path| *path != "-")
    }

    /// The recipe that `recipe` is to print, if it is to print one.
    pub fn printed(&self) -> Result<Option<Named<'a>>, Stop> {
        self.one_standard_input()?;
        Ok(self.files("print")?.pop())
    }

    /// What `recipe` asks of recipes that are judged.
    pub fn recipe_asked(&self) -> Result<RecipeAsked, Stop> {
        Ok(RecipeAsked {
            options: RecipeOptions {
                map: self.map()?,
                budget: self.budget(),
                window: self.window()?,
            },
            clocks: self.clocks()?,
        })
    }

    /// The path of the file for a frame that shows why the one of so many recipes is refused.
    pub fn witness(&self, recipes: usize) -> Result<Option<&'a str>, Stop> {
        match self.matches.get_str("output") {
            Some("-") => Err(Stop::Misuse("dvgcheck: -o takes a file, not -")),
            Some(_) if recipes > 1 => Err(Stop::Misuse("dvgcheck: -o takes one recipe")),
            path => Ok(path),
        }
    }

    /// What `belongs` asks of frames.
    pub fn belongs(&self) -> Result<BelongsAsked<'a>, Stop> {
        self.one_standard_input()?;
        Ok(BelongsAsked {
            rom: self.file("ROM"),
            map: self.map()?,
            recipe: self.file("RECIPE"),
            labels: self.labels,
            listing: self.listing(self.detail, "only-outside"),
        })
    }

    /// The rule that `rules` is to tell of, or `None` for all rules.
    pub fn rule(&self) -> Result<Option<Rule>, Stop> {
        let Some(number) = self.matches.get_one::<u8>("NN") else {
            return Ok(None);
        };
        match rule_of(number) {
            Some(rule) => Ok(Some(rule)),
            None => Err(Stop::Misuse("dvgcheck: no such number")),
        }
    }
}

/// What `clap` says of words that it refuses, or that ask for help or the version. It is given the marked words, which it refuses as
/// well.
fn refused(alloc: Global, words: &[String]) -> Result<Stop, AllocError> {
    let marked = marked(alloc, words)?;
    let Err(error) = command(alloc)?.try_get_matches_from(&marked) else {
        return Ok(Stop::Misuse(UNREAD_WORDS));
    };
    if error.kind() == ErrorKind::OutOfMemory {
        return Err(AllocError);
    }
    let text = escaped(alloc, format!(in alloc; "{error}")?.as_str())?;
    Ok(if error.use_stderr() {
        Stop::Usage(text)
    } else {
        Stop::Help(text)
    })
}
