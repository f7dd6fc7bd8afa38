//! The first line of a script or a trace.
ghost use Rattle.std.specs.Prelude.{◌≡◌, ◌++◌, Ok, IfOk, OnOk};
ghost use Rattle.ulfm_model.specs.declared.limits.Limits.{Limits};
ghost use Rattle.ulfm_model.specs.Words.{MayOpen};
ghost use Rattle.ulfm_script.specs.Headers.{call_heading, header_of, header_text, heading_of, read_limits};
ghost use Rattle.ulfm_script.specs.Words.{rest_at};

use crate::header_kind::HeaderKind;
use crate::heading::Heading;
use crate::line_kind::LineKind;
use crate::printing::print_behind;
use crate::version::Version;
use crate::words::{four_words, read_number, split_word};
use std::alloc::{AllocError, Allocator};
use ulfm_model::Limits;

/// What the first line of a script of calls gives, without its newline: the version and the limits of the header `ulfm 1 RANKS COMMS ROUNDS` or
/// `ulfm 2 RANKS COMMS ROUNDS`. The faults are those of [`read_header`].
///
/// ```
/// let heading = Heading { version: Version::Second, limits };
/// assert!(rt; read_call_heading(b"ulfm 2 3 1 4") == Ok(heading));
/// assert!(rt; read_call_heading(b"ulfm 3 3 1 4") == Err(LineKind::Header));
/// ```
pub fn read_call_heading(line: &[u8]) -> Result<Heading, LineKind>
    ensures exact { result ≡ call_heading line.now }
    ensures opens { IfOk result (λ heading. MayOpen heading.limits) }
{
    match read_heading(HeaderKind::Calls(Version::Second), line) {
        Err(LineKind::Header) => read_heading(HeaderKind::Calls(Version::First), line),
        read => read,
    }
}

/// What a header of this kind gives, without its newline: its version and its limits. The faults are those of [`read_header`].
pub fn read_heading(kind: HeaderKind, line: &[u8]) -> Result<Heading, LineKind>
    ensures exact { result ≡ heading_of kind line.now }
    ensures opens { IfOk result (λ heading. MayOpen heading.limits) }
{
    let limits = read_header(kind, line)?;
    Ok(Heading {
        version: kind.version(),
        limits,
    })
}

/// The limits that a header gives: the line `ulfm 1 RANKS COMMS ROUNDS`, `ulfm 2 ..`, `ulfm-steps 1 ..` or `ulfm-trace 1 ..`, as the kind says,
/// without its newline. The fault is `Header` where the line isn't in this form, and `Limits` where no world of these limits may be
/// opened.
pub fn read_header(kind: HeaderKind, line: &[u8]) -> Result<Limits, LineKind>
    ensures exact { result ≡ header_of kind line.now }
    ensures opens { IfOk result (λ limits. MayOpen limits) }
    ensures found { IfOk result (λ limits. line.now ≡ header_text kind limits) }
    ensures only { (limits : Limits) → MayOpen limits → line.now ≡ header_text kind limits → result ≡ Ok limits }
{
    parse_header(kind, line)
}

#[tactic(auto, unfolding(crate::specs::Headers::header_of))]
fn parse_header(kind: HeaderKind, line: &[u8]) -> Result<Limits, LineKind>
    ensures exact { result ≡ header_of kind line.now }
    ensures opens { IfOk result (λ limits. MayOpen limits) }
{
    let (name, fields) = split_word(line);
    if name != kind.word() {
        return Err(LineKind::Header);
    }
    let Ok(limits) = read_limits(kind, fields) else {
        return Err(LineKind::Header);
    };
    if limits.check().is_err() {
        return Err(LineKind::Limits);
    }
    Ok(limits)
}

#[tactic(auto, unfolding(crate::specs::Headers::read_limits))]
fn read_limits(kind: HeaderKind, fields: Option<&[u8]>) -> Result<Limits, LineKind>
    ensures { result ≡ read_limits kind (rest_at fields.entry) }
{
    let (version, ranks, comms, rounds) = four_words(fields)?;
    if version != kind.version_word() {
        return Err(LineKind::Header);
    }
    let ranks = read_number(ranks)?;
    let comms = read_number(comms)?;
    let rounds = read_number(rounds)?;
    Ok(Limits {
        ranks,
        comms,
        rounds,
    })
}

/// Appends a header, as `ulfm-trace 1 3 2 4`, without a newline. After an error nothing is said of the text.
pub fn print_header<A: Allocator>(
    text: &mut Vec<u8, A>,
    kind: HeaderKind,
    limits: Limits,
) -> Result<(), AllocError>
    ensures { OnOk result (text.new.items ≡ text.old.items ++ header_text kind limits) }
{
    text.extend_from_slice(kind.word())?;
    text.push(b' ')?;
    text.extend_from_slice(kind.version_word())?;
    print_behind(text, limits.ranks)?;
    print_behind(text, limits.comms)?;
    print_behind(text, limits.rounds)
}
