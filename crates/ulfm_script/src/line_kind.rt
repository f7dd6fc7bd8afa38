//! What can be wrong with a line of a script, in the order of testing, with the names that are printed.
use std::error::Error;
use std::fmt::{self, Display, Formatter, Write};

/// What is wrong with a line of a script. The kinds are tested in this order, the fields of a line (`Number`, `Flag` and `Step`)
/// from left to right.
#[derive(Clone, Copy, Debug, PartialEq, Eq)]
pub enum LineKind {
    /// The text ends inside the line.
    Cut,
    /// The line has more than 64 bytes.
    Long,
    /// There is a line after the 100,000th.
    Lines,
    /// The first line isn't a header, or there is none.
    Header,
    /// A limit of the header is out of its range, or the world is too large.
    Limits,
    /// The first word is no verb.
    Verb,
    /// The verb has too few or too many words behind it, or an empty one.
    Words,
    /// A field isn't a number in its form and range.
    Number,
    /// A field isn't a flag in its form.
    Flag,
    /// A field isn't the name of an atomic step. Only scripts of steps have such fields.
    Step,
    /// A call of a rank whose call is still under way. Only scripts of steps have it, and no line alone shows it.
    Open,
}

impl LineKind {
    /// The name that is printed for it.
    fn name(self) -> &'static str {
        match self {
            LineKind::Cut => "cut",
            LineKind::Long => "long",
            LineKind::Lines => "lines",
            LineKind::Header => "header",
            LineKind::Limits => "limits",
            LineKind::Verb => "verb",
            LineKind::Words => "words",
            LineKind::Number => "number",
            LineKind::Flag => "flag",
            LineKind::Step => "step",
            LineKind::Open => "open",
        }
    }
}

impl Display for LineKind {
    fn fmt<W: Write>(&self, f: &mut Formatter<W>) -> Result<(), fmt::Error> {
        f.write_str(self.name())
    }
}

impl Error for LineKind {}
