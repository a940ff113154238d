//! The options of the subcommands.

use crate::form::Form;
use crate::subcommand::Task;
use clap::{Arg, arg, value_parser};
use dvg_cmd::MOST_WORDS;
use std::alloc::{AllocError, Global};

/// An option of a subcommand. No default is `clap`'s, which would parse it and give it a place at each run: what reads the option has
/// it, and the help says so.
#[derive(Clone, Copy)]
pub enum CommandOption {
    Board,
    Budget,
    Cert,
    Clip,
    Clocks,
    Exact,
    Frame,
    Labels,
    List,
    Map,
    Null,
    /// `--only-refused`, or `--only-outside`.
    OnlyBad,
    Output,
    Print,
    Records,
    Remarks,
    Start,
    Summary,
    Window,
    Within,
}

use CommandOption::{
    Board, Budget, Cert, Clip, Clocks, Exact, Frame, Labels, List, Map, Null, OnlyBad, Output,
    Print, Records, Remarks, Start, Summary, Window, Within,
};

impl CommandOption {
    /// The option of this task, as `clap` takes it.
    pub fn arg<'a>(self, alloc: Global, task: Task) -> Result<Arg<'a>, AllocError> {
        match task {
            Task::Recipe | Task::Belongs => self.bounded(self.text_of_recipes(alloc)),
            _ => self.bounded(self.bounded_of_frames(self.text(alloc))?),
        }
    }

    /// How words begin, behind `--`, that name it or an option that requires it.
    fn beginnings(self) -> &'static [&'static str] {
        match self {
            Board => &["board", "clip", "clocks", "within"],
            Budget => &["budget"],
            Cert => &["cert"],
            Clip => &["clip"],
            Clocks => &["clocks"],
            Exact => &["exact"],
            Frame => &["frame"],
            Labels => &["labels"],
            List => &["list", "null"],
            Map => &["rom"],
            Null => &["null"],
            OnlyBad => &["only-"],
            Output => &["output"],
            Print => &["print"],
            Records => &["records"],
            Remarks => &["remarks"],
            Start => &["start"],
            Summary => &["summary"],
            Window => &["window"],
            Within => &["within"],
        }
    }

    /// Whether this word may name it, or an option that requires it.
    pub fn matters_to(self, word: &str) -> bool {
        match word.strip_prefix("--") {
            Some(name) => self
                .beginnings()
                .iter()
                .any(|start| name.starts_with(*start)),
            None => matches!(self, Output) && word.starts_with("-o"),
        }
    }

    /// Its names, how the help names its value, and what it says of the option.
    fn text<'a>(self, alloc: Global) -> Arg<'a> {
        match self {
            Board => arg!(in alloc; --board
                "Judges for a board of the DVG: draws move by whole places, LABS has twelve bits"),
            Budget =>
                arg!(in alloc; --budget <N> "How many words the frame may take at most [default: 20000]"),
            Cert => arg!(in alloc; --cert <CERT>
                "Judges all frames by this certificate of the ROM's shapes, which says where the ROM lies"),
            Clip => arg!(in alloc; --clip
                "Lets lit strokes reach from -1024 to 2047, where the board blanks what is off the screen"),
            Clocks => arg!(in alloc; --clocks
                "Tells of each accepted frame how many clocks the board takes to draw it, 1512 a millisecond"),
            Exact =>
                arg!(in alloc; --exact "Takes the certificate's words and depths as exact, not as bounds"),
            Frame => arg!(in alloc; --frame <FRAME>... "A frame; its calls become roots, too"),
            Labels => arg!(in alloc; --labels <FILE>
                "The labels of the program, which name addresses in accounts, remarks, roots and starts"),
            List =>
                arg!(in alloc; --list <FILE> "Judges the frames that this file names, one a line, in place of FRAME"),
            Map => arg!(in alloc; --rom <MAP>
                "The word addresses of the ROM's first and last word, within 400 to BFF [default: 800/BFF]"),
            Null => arg!(in alloc; --null "Names in the list end with NUL, not LF"),
            Output => arg!(in alloc; -o --output <FILE>
                "Writes the certificate to this file, which keeps what it holds until the new one is whole"),
            Print =>
                arg!(in alloc; --print <RECIPE> "Prints the one spelling of this recipe, in place of judging any"),
            Records => arg!(in alloc; --records <LENGTH>
                "Takes each FRAME as records of so many bytes, one behind another, each of which is a frame"),
            OnlyBad => arg!(in alloc; --"only-refused" "Leaves out the lines of accepted frames"),
            Remarks =>
                arg!(in alloc; --remarks "Writes remarks on accepted frames, each as a line"),
            Start => arg!(in alloc; --start <START>
                "Judges each frame as though its word 000 were the jump to this word address, or to this label of --labels"),
            Summary =>
                arg!(in alloc; --summary "Ends with a line that counts the frames by what is said of them"),
            Window => arg!(in alloc; --window <WINDOW>
                "Where the screen may be lit: from X0 to X1 across, from Y0 to Y1 up [default: 0,1023,0,1023]"),
            Within => arg!(in alloc; --within <LIMIT>
                "Refuses frames that may take the board more than so many milliseconds to draw"),
        }
    }

    /// The same of a task about recipes.
    fn text_of_recipes<'a>(self, alloc: Global) -> Arg<'a> {
        match self {
            Board =>
                arg!(in alloc; --board "Changes nothing: the frames of recipes are those of a board of the DVG"),
            Clocks => arg!(in alloc; --clocks
                "Tells of each accepted recipe how many clocks the board takes at most to draw a frame, 1512 a millisecond"),
            Labels =>
                arg!(in alloc; --labels <FILE> "The labels of the program, which name addresses in recipes"),
            OnlyBad =>
                arg!(in alloc; --"only-outside" "Leaves out the lines of frames that belong"),
            Output => arg!(in alloc; -o --output <FRAME>
                "Writes a frame that shows why the recipe is refused to this file, which keeps what it holds if there is none"),
            Within => arg!(in alloc; --within <LIMIT>
                "Refuses recipes of which some frame may take the board more than so many milliseconds to draw"),
            _ => self.text(alloc),
        }
    }

    /// With the form of its value or what bounds it, and which options it requires or conflicts with.
    fn bounded<'a>(self, arg: Arg<'a>) -> Result<Arg<'a>, AllocError> {
        match self {
            Map => Ok(arg.value_name(Form::Map.pattern())),
            Start => Ok(arg.value_name(Form::Start.pattern())),
            Window => Ok(arg.value_name(Form::Window.pattern())),
            Within => Ok(arg.value_name(Form::Within.pattern())),
            Budget => Ok(arg.value_parser(value_parser!(u32).range(1..=i64::from(MOST_WORDS)))),
            Cert => arg.conflicts_with("rom"),
            Clip => arg.conflicts_with("window"),
            Null => arg.requires_arg("list")?.conflicts_with("FRAME"),
            Print => {
                arg.conflicts_with("ROM")?
                    .conflicts_with("RECIPE")?
                    .conflicts_with("output")
            }
            Records => {
                arg.value_name(Form::Records.pattern())
                    .conflicts_with("list")
            }
            _ => Ok(arg),
        }
    }

    /// With what it requires or conflicts with in a task about frames besides. Recipes always take the board.
    fn bounded_of_frames<'a>(self, arg: Arg<'a>) -> Result<Arg<'a>, AllocError> {
        match self {
            Clip => arg.requires_arg("board"),
            Clocks | Within => arg.requires_arg("board")?.conflicts_with("cert"),
            _ => Ok(arg),
        }
    }
}
