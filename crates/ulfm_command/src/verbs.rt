//! The verbs of the program's command lines: a row for each, with its options and what help says of it.
use crate::texts::{
    CHECK_HELP, DRAW_HELP, EXPLORE_HELP, MIGRATE_HELP, RACE_HELP, REPLAY_HELP, RUN_HELP,
};

/// An option of a verb.
#[derive(Clone, Copy)]
pub(crate) enum Choice {
    /// It is given or not.
    Flag {
        /// Its name.
        name: &'static str,
        /// What help says of it.
        help: &'static str,
    },
    /// It takes a number.
    Number {
        /// Its name.
        name: &'static str,
        /// What help calls the number.
        shown: &'static str,
        /// What help says of it.
        help: &'static str,
        /// The least number and the greatest.
        bounds: (i64, i64),
        /// Whether it must be given.
        required: bool,
    },
}

/// A verb.
#[derive(Clone, Copy)]
pub(crate) struct Verb {
    /// The word.
    pub(crate) name: &'static str,
    /// What it does.
    pub(crate) about: &'static str,
    /// What its help shows behind its options.
    pub(crate) help: &'static str,
    /// Its options.
    pub(crate) choices: &'static [Choice],
}

/// All verbs.
pub(crate) const VERBS: [Verb; 7] = [
    Verb {
        name: "run",
        about: "Runs the script on standard input: of calls, each of which prints a line, or of single steps",
        help: RUN_HELP,
        choices: &[
            Choice::Flag {
                name: "steps",
                help: "Runs a script of single atomic steps, and prints its trace",
            },
            Choice::Flag {
                name: "echo",
                help: "Prints each call before its reply; with --steps the trace has them anyhow",
            },
        ],
    },
    Verb {
        name: "migrate",
        about: "Writes the script of calls on standard input, of version 1, as one of version 2",
        help: MIGRATE_HELP,
        choices: &[],
    },
    Verb {
        name: "check",
        about: "Judges the trace on standard input: whether it is legal, or which line can't be, and why",
        help: CHECK_HELP,
        choices: &[
            Choice::Flag {
                name: "explain",
                help: "Says of an illegal trace what is wrong, and what would have been legal",
            },
            Choice::Flag {
                name: "observed",
                help: "Judges a log of calls and replies: whether some legal trace explains it",
            },
            Choice::Flag {
                name: "witness",
                help: "With --observed, prints the trace that explains the log, too",
            },
        ],
    },
    Verb {
        name: "draw",
        about: "Draws the trace on standard input: a picture for a browser, or rows for a terminal",
        help: DRAW_HELP,
        choices: &[
            Choice::Flag {
                name: "text",
                help: "Draws the rows in characters, for a terminal",
            },
            Choice::Flag {
                name: "ascii",
                help: "With --text, uses ASCII alone, on a terminal too",
            },
        ],
    },
    Verb {
        name: "explore",
        about: "Tries every schedule and every failure of the program on standard input, and prints its outcomes",
        help: EXPLORE_HELP,
        choices: &[
            Choice::Number {
                name: "most",
                shown: "STATES",
                help: "How many states there may be at most, 5000000 if it isn't said",
                bounds: (1, 1_000_000_000),
                required: false,
            },
            Choice::Number {
                name: "outcome",
                shown: "N",
                help: "Prints the script of outcome N alone",
                bounds: (1, 1_000_000_000),
                required: false,
            },
        ],
    },
    Verb {
        name: "replay",
        about: "Prints the history that the stored log on standard input makes, and what each round decided",
        help: REPLAY_HELP,
        choices: &[],
    },
    Verb {
        name: "race",
        about: "Lets ranks agree and shrink, each on a thread of its own, and prints what they agreed on",
        help: RACE_HELP,
        choices: &[
            Choice::Number {
                name: "ranks",
                shown: "N",
                help: "How many ranks race, 1 to 64",
                bounds: (1, 64),
                required: true,
            },
            Choice::Number {
                name: "rounds",
                shown: "K",
                help: "How often they agree, 1 to 1000",
                bounds: (1, 1000),
                required: true,
            },
            Choice::Number {
                name: "fail",
                shown: "R",
                help: "The rank that is declared failed, below N",
                bounds: (0, 63),
                required: false,
            },
        ],
    },
];
