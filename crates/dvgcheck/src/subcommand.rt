//! The subcommands, and what `clap` knows of them.

use crate::options::CommandOption;
use crate::options::CommandOption::{
    Board, Budget, Cert, Clip, Clocks, Exact, Frame, Labels, List, Map, Null, OnlyBad, Output,
    Print, Records, Remarks, Start, Summary, Window, Within,
};
use clap::{Arg, Command, value_parser};
use dvg_cmd::Detail;
use std::alloc::{AllocError, Global};

/// What `--version` says behind the program's name: its version, and the logic with which it is proved.
const VERSION: &str = "2.0.3\nproved with logic dac8208d650f15bf";

/// What is asked for.
#[derive(Clone, Copy)]
pub enum Task {
    Frames,
    Check,
    Make,
    Places,
    Diff,
    Recipe,
    Belongs,
    Rules,
}

/// What stands at a place of the command line.
#[derive(Clone, Copy)]
enum Argument {
    Rom,
    /// The ROM, unless a recipe is printed.
    RomOfRecipes,
    Certificate,
    OneFrame,
    /// Frames, which a list of names may replace.
    Frames,
    ManyFrames,
    OneRecipe,
    /// Recipes, unless one is printed.
    Recipes,
    ManyRecipes,
    OtherRom,
    Dump,
    Roots,
    Number,
}

/// What the help says of a task, printed or explained, and what it takes.
#[derive(Clone, Copy)]
pub struct Syntax<'a> {
    pub task: Task,
    about: &'a str,
    arguments: &'a [Argument],
    options: &'a [CommandOption],
}

/// The tasks in the order of the help.
const PRINTED: [Syntax<'static>; 8] = [
    Syntax {
        task: Task::Frames,
        about: "Judges frames over a vector ROM, each by a certificate made for it, and prints a line for each",
        arguments: &[Argument::Rom, Argument::Frames],
        options: &[
            Board, Map, Cert, Budget, Window, Clip, Start, Labels, Clocks, Within, Remarks,
            Records, List, Null, OnlyBad, Summary,
        ],
    },
    Syntax {
        task: Task::Check,
        about: "Judges a frame over a vector ROM and its certificate, and prints the report",
        arguments: &[Argument::Rom, Argument::Certificate, Argument::OneFrame],
        options: &[Board, Budget, Window, Clip, Exact],
    },
    Syntax {
        task: Task::Make,
        about: "Prints the certificate of shapes of a vector ROM, and of all that they call",
        arguments: &[Argument::Rom, Argument::Roots],
        options: &[Board, Frame, Map, Labels, Output],
    },
    Syntax {
        task: Task::Places,
        about: "Prints where calls of shapes of a vector ROM, and of all that they call, stay within the window",
        arguments: &[Argument::Rom, Argument::Roots],
        options: &[Board, Frame, Map, Labels, Window, Clip],
    },
    Syntax {
        task: Task::Diff,
        about: "Prints which shapes of a vector ROM, and which frames, read words that differ in another ROM",
        arguments: &[Argument::Rom, Argument::OtherRom, Argument::Roots],
        options: &[Board, Frame, Map, Labels],
    },
    Syntax {
        task: Task::Recipe,
        about: "Judges all frames that recipes allow over a vector ROM on a board, and prints a line for each recipe",
        arguments: &[Argument::RomOfRecipes, Argument::Recipes],
        options: &[
            Board, Map, Budget, Window, Clip, Labels, Clocks, Within, Output, Print,
        ],
    },
    Syntax {
        task: Task::Belongs,
        about: "Tells which frames are among those that a recipe allows, and prints a line for each",
        arguments: &[Argument::Rom, Argument::OneRecipe, Argument::Frames],
        options: &[Board, Map, Labels, Records, List, Null, OnlyBad, Summary],
    },
    Syntax {
        task: Task::Rules,
        about: "Prints what each number in an answer means",
        arguments: &[Argument::Number],
        options: &[],
    },
];

/// The tasks that can be explained, in the order of the help.
const EXPLAINED: [Syntax<'static>; 6] = [
    Syntax {
        task: Task::Frames,
        about: "Judges frames over a vector ROM, by certificates made for them, and explains each answer",
        arguments: &[Argument::Rom, Argument::Frames],
        options: &[
            Board, Map, Cert, Budget, Window, Clip, Start, Labels, Clocks, Within, Records, List,
            Null, OnlyBad, Summary,
        ],
    },
    Syntax {
        task: Task::Check,
        about: "Judges a frame over a vector ROM and its certificate, and prints the report",
        arguments: &[Argument::Rom, Argument::Certificate, Argument::OneFrame],
        options: &[Board, Budget, Window, Clip, Exact, Labels],
    },
    Syntax {
        task: Task::Make,
        about: "Explains what certificate is made of shapes of a vector ROM, or why none, and writes none",
        arguments: &[Argument::Rom, Argument::Roots],
        options: &[Board, Frame, Map, Labels],
    },
    Syntax {
        task: Task::Diff,
        about: "Tells how another dump differs from a vector ROM, and which single faults would turn the ROM into it",
        arguments: &[Argument::Rom, Argument::Dump],
        options: &[Map, Labels],
    },
    Syntax {
        task: Task::Belongs,
        about: "Tells which frames are among those that a recipe allows, and of another where it leaves the recipe, and which lines could stand there",
        arguments: &[Argument::Rom, Argument::OneRecipe, Argument::ManyFrames],
        options: &[Board, Map, Labels, Records],
    },
    Syntax {
        task: Task::Recipe,
        about: "Judges all frames that recipes allow, and tells the room in the lists and what is known before each line, or of a frame that is refused",
        arguments: &[Argument::Rom, Argument::ManyRecipes],
        options: &[Board, Map, Budget, Window, Clip, Labels],
    },
];

/// What the help of a task says of files.
const INPUT_HELP: &str = "One of the files that are read may be -, which is standard input";

/// What the shortest inputs of rules leave out.
const SHORTEST_HELP: &str =
    "Where a shortest input says nothing else, the ROM is 2048 zero bytes, the certificate is `dvgcert 1` LF `done 0` LF, and the
frame is the word `B000`; words of a ROM stand from 800 on, with zeros around them. For 10 to 16 the ROM is an empty file. For 20 to
33 the certificate has one entry, the short entry `shape 800 0 end lost box none depth 0 words 1 scale 0` with what is changed in it.";

/// What the help of `explain` says.
const EXPLAIN_HELP: &str =
    "The first line and the exit status are those of the command; of diff the line counts what differs, and the status is 1 if anything does";

impl Argument {
    /// The argument as `clap` takes it.
    fn arg<'a>(self, alloc: Global) -> Result<Arg<'a>, AllocError> {
        let (name, help) = self.text();
        self.bounded(Arg::new(alloc, name).help(help))
    }

    /// With how many values it has, and when it is required.
    fn bounded<'a>(self, arg: Arg<'a>) -> Result<Arg<'a>, AllocError> {
        match self {
            Argument::RomOfRecipes => arg.required_unless_present("print"),
            Argument::Recipes => arg.num_args(1..).required_unless_present("print"),
            Argument::Frames => {
                arg.num_args(1..)
                    .required_unless_present("list")?
                    .conflicts_with("list")
            }
            Argument::ManyFrames | Argument::ManyRecipes => Ok(arg.num_args(1..).required(true)),
            Argument::Roots => Ok(arg.num_args(1..)),
            Argument::Number => Ok(arg.value_parser(value_parser!(u8))),
            _ => Ok(arg.required(true)),
        }
    }

    /// Its name, and what the help says of it.
    fn text<'a>(self) -> (&'a str, &'a str) {
        match self {
            Argument::Rom | Argument::RomOfRecipes => (
                "ROM",
                "The vector ROM: two bytes for each of its words, low byte first",
            ),
            Argument::Certificate => ("CERT", "The certificate of the ROM's shapes"),
            Argument::OneFrame | Argument::Frames | Argument::ManyFrames => (
                "FRAME",
                "The frame: 2 to 2048 bytes of vector RAM, from word 000 on",
            ),
            Argument::OneRecipe | Argument::Recipes | Argument::ManyRecipes => (
                "RECIPE",
                "The recipe: a text that says what frames a game builds",
            ),
            Argument::OtherRom => (
                "OTHER",
                "The ROM with which it is compared, at the same addresses",
            ),
            Argument::Dump => (
                "OTHER",
                "The dump that is compared with it, of 1 to 4096 bytes",
            ),
            Argument::Roots => (
                "ROOT",
                "A shape that a program calls: its address, a slash, and a scale of 0 to 15 or any, as 800/0",
            ),
            Argument::Number => (
                "NN",
                "A number: prints its line, its shortest input and what to do, too",
            ),
        }
    }
}

impl Task {
    fn name<'a>(self) -> &'a str {
        match self {
            Task::Frames => "frames",
            Task::Check => "check",
            Task::Make => "make",
            Task::Places => "places",
            Task::Diff => "diff",
            Task::Recipe => "recipe",
            Task::Belongs => "belongs",
            Task::Rules => "rules",
        }
    }
}

impl<'a> Syntax<'a> {
    /// Its command, with its arguments and its options, all or those that matter to some of these words, which begin with `-`.
    fn command(&self, alloc: Global, words: Option<&[&str]>) -> Result<Command<'a>, AllocError> {
        let behind = match self.task {
            Task::Rules => SHORTEST_HELP,
            _ => INPUT_HELP,
        };
        let mut command = Command::new(alloc, self.task.name())
            .about(self.about)
            .after_help(behind);
        for argument in self.arguments {
            command = command.arg(argument.arg(alloc)?)?;
        }
        for option in self.options {
            let is_taken = match words {
                Some(words) => words.iter().any(|word| option.matters_to(word)),
                None => true,
            };
            if is_taken {
                command = command.arg(option.arg(alloc, self.task)?)?;
            }
        }
        Ok(command)
    }

    /// Its command as it is parsed alone, where these words stand behind its name: without its help, and without options that matter to
    /// none of them, since the rest of the program's command would only cost time.
    pub fn command_for(&self, alloc: Global, words: &[String]) -> Result<Command<'a>, AllocError> {
        let mut named = Vec::new(alloc);
        for word in words {
            if word.as_str().starts_with('-') {
                named.push(word.as_str())?;
            }
        }
        Ok(
            self.command(alloc, Some(named.as_slice()))?
                .no_binary_name(true)
                .disable_help_flag(true)
                .disable_help_subcommand(true),
        )
    }
}

/// What these words name, with an account if `explain` stands before the task, and the words behind its name. The first word is the
/// program's name.
pub fn syntax_named<'a>(
    words: &'a [String],
) -> Option<(Detail<'a>, Syntax<'static>, &'a [String])> {
    let (_, words) = words.split_first()?;
    let (name, rest) = words.split_first()?;
    if name.as_str() != "explain" {
        return Some((Detail::Line, named(&PRINTED, name)?, rest));
    }
    let (name, rest) = rest.split_first()?;
    Some((Detail::Account(None), named(&EXPLAINED, name)?, rest))
}

/// The one of these whose task has this name.
fn named<'a>(syntaxes: &[Syntax<'a>], name: &String) -> Option<Syntax<'a>> {
    syntaxes
        .iter()
        .copied()
        .find(|syntax| syntax.task.name() == name.as_str())
}

/// The program's command.
pub fn command<'a>(alloc: Global) -> Result<Command<'a>, AllocError> {
    let mut command = Command::new(alloc, "dvgcheck")
        .about("Checks frames and vector ROMs of Atari's Digital Vector Generator")
        .version(VERSION)
        .subcommand_required(true)
        .arg_required_else_help(true);
    for syntax in PRINTED {
        if let Task::Rules = syntax.task {
            command = command.subcommand(explain_command(alloc)?)?;
        }
        command = command.subcommand(syntax.command(alloc, None)?)?;
    }
    Ok(command)
}

/// The command `explain`, with those behind it.
fn explain_command<'a>(alloc: Global) -> Result<Command<'a>, AllocError> {
    let mut command = Command::new(alloc, "explain")
        .about(
            "Prints the answer of a command, and an account of it: where, what, why, and what to do",
        )
        .after_help(EXPLAIN_HELP)
        .subcommand_required(true)
        .arg_required_else_help(true);
    for syntax in EXPLAINED {
        command = command.subcommand(syntax.command(alloc, None)?)?;
    }
    Ok(command)
}
