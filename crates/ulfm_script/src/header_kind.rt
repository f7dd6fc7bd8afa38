//! The three kinds of texts, which the first word of the first line tells apart.
ghost use Rattle.std.specs.Prelude.{◌≡◌};
ghost use Rattle.ulfm_script.specs.Headers.{kind_text, version_of, version_text};

use crate::version::Version;

/// What kind of text a first line begins.
#[derive(Clone, Copy, Debug, PartialEq, Eq)]
pub enum HeaderKind {
    /// A script of calls, of this version.
    Calls(Version),
    /// A script of single steps.
    Steps,
    /// A trace.
    Trace,
}

impl HeaderKind {
    /// The first word of such a line, as `ulfm-trace`.
    pub fn word(self) -> &'static [u8]
        ensures { result.now ≡ kind_text self }
    {
        match self {
            HeaderKind::Calls(_) => b"ulfm",
            HeaderKind::Steps => b"ulfm-steps",
            HeaderKind::Trace => b"ulfm-trace",
        }
    }

    /// The version of such a text.
    pub fn version(self) -> Version
        ensures { result ≡ version_of self }
    {
        match self {
            HeaderKind::Calls(version) => version,
            HeaderKind::Steps | HeaderKind::Trace => Version::First,
        }
    }

    /// The second word of such a line, which names the version.
    pub fn version_word(self) -> &'static [u8]
        ensures { result.now ≡ version_text self }
    {
        match self {
            HeaderKind::Calls(Version::Second) => b"2",
            HeaderKind::Calls(Version::First) | HeaderKind::Steps | HeaderKind::Trace => b"1",
        }
    }
}
