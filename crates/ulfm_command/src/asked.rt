//! What a command line asks for.
ghost use Rattle.std.specs.Prelude.{◌≡◌};
ghost use Rattle.ulfm_command.specs.CommandLines.{is_in_range};

use clap::Error;
use std::fmt;

/// The options of a race, as `ulfm race --ranks 4 --rounds 20 --fail 2` gives them.
#[derive(Clone, Copy, Debug, PartialEq, Eq)]
pub struct RaceOptions {
    /// How many ranks race, 1 to 64.
    pub ranks: u16,
    /// How often they agree, 1 to 1000.
    pub rounds: u16,
    /// The rank that is declared, if one is, below `ranks`.
    pub fail: Option<u16>,
}

impl RaceOptions {
    /// Whether each option is in its range.
    pub(crate) fn is_in_range(&self) -> bool
        ensures { result ≡ is_in_range self.now }
    {
        let fail_is = match self.fail {
            Some(rank) => rank < self.ranks,
            None => true,
        };
        1 <= self.ranks && self.ranks <= 64 && 1 <= self.rounds && self.rounds <= 1000 && fail_is
    }
}

/// Which script is to be run, and how.
#[derive(Clone, Copy, Debug, PartialEq, Eq)]
pub enum RunForm {
    /// One of calls.
    Calls,
    /// One of calls, each of which is printed before its reply.
    Echoed,
    /// One of single steps.
    Steps,
}

/// What is to be judged, and how.
#[derive(Clone, Copy, Debug, PartialEq, Eq)]
pub enum CheckForm {
    /// A trace.
    Trace,
    /// A trace, and where it is illegal the reason is to be explained.
    Explained,
    /// A log of calls and replies.
    Log {
        /// The trace that explains it is wanted.
        witness: bool,
    },
}

/// The options of a picture, as `ulfm draw --text` gives them.
#[derive(Clone, Copy, Debug, PartialEq, Eq)]
pub struct DrawOptions {
    /// The rows are wanted in characters, for a terminal.
    pub text: bool,
    /// In ASCII alone.
    pub ascii: bool,
}

/// The options of an exploration, as `ulfm explore --most 1000000 --outcome 2` gives them.
#[derive(Clone, Copy, Debug, PartialEq, Eq)]
pub struct ExploreOptions {
    /// How many states there may be at most, 1 to 1,000,000,000, if that is said.
    pub most: Option<u32>,
    /// The number of the outcome whose script alone is wanted, counted from 1, if one is.
    pub outcome: Option<u32>,
}

/// Why a command line is bad.
#[derive(Drop)]
pub enum Reason {
    /// The command line crate refused the words.
    Words(Error),
    /// They name no command.
    NoCommand,
    /// The rank that is to be declared isn't one of the race's.
    NoSuchRank,
    /// A witness is wanted of a trace, or an explanation of a log.
    NotOfAllForms,
}

impl fmt::Display for Reason {
    fn fmt<W: fmt::Write>(&self, f: &mut fmt::Formatter<W>) -> Result<(), fmt::Error> {
        match self {
            Reason::Words(error) => write!(f, "{error}"),
            Reason::NoCommand => f.write_str("error: no command is named\n"),
            Reason::NoSuchRank => f.write_str(
                "error: the rank of '--fail <R>' must be below '--ranks <N>'\n",
            ),
            Reason::NotOfAllForms => f.write_str(
                "error: '--witness' goes with '--observed', and '--explain' goes without it\n",
            ),
        }
    }
}

/// What the program is to do.
#[derive(Clone, Copy, Debug, PartialEq, Eq)]
pub enum Task {
    /// Run a script.
    Run(RunForm),
    /// Write a script of calls of the first version as one of the second.
    Migrate,
    /// Judge a trace, or a log of calls and replies.
    Check(CheckForm),
    /// Draw a trace.
    Draw(DrawOptions),
    /// Explore a program of ranks.
    Explore(ExploreOptions),
    /// Tell the history that a stored log of a world makes.
    Replay,
    /// Run a race, whose options are in their ranges.
    Race(RaceOptions),
}

/// What a command line asks for.
#[derive(Drop)]
pub enum Asked {
    /// The program is to do this.
    Task(Task),
    /// This text is to be shown: of help, or the version.
    Shown(String),
    /// Nothing, since the line is bad.
    Bad(Reason),
    /// Memory was refused before that was known.
    Memory,
}
