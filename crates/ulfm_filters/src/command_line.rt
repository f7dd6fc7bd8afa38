//! The words of a command line, and what is said where there is no use for them.
ghost use Rattle.std.specs.Prelude.{◌≡◌, ◌↔◌, IfOk, MatchResult, map, string_bytes};
ghost use Rattle.std.specs.IoError.{error_kind};
ghost use Rattle.std.specs.Vec.Iter.{into_iter_items};
ghost use Rattle.ulfm_filters.specs.Answers.{MayAnswer};
ghost use Rattle.ulfm_filters.specs.declared.command_line.Unread.TheVariants.{Memory as OfMemory, NoText};
ghost use Rattle.ulfm_filters.specs.Notes.{TellsUnread, bad_line};
ghost use Rattle.ulfm_script.specs.Written.{WritesPart};

use crate::telling::{tell, tell_fault};
use std::alloc::{AllocError, Global};
use std::io::{ErrorKind, Write};
use std::{env, io};
use ulfm_script::RunFault;

/// Why the words of a command line couldn't be read.
#[derive(Clone, Copy, Debug, PartialEq, Eq)]
pub enum Unread {
    /// Memory was refused.
    Memory,
    /// A word isn't UTF-8.
    NoText,
}

/// The status that `answer` gives for the words of the command line, all that are left of them: at first the program's own name is the
/// first. Where they can't be read, `answer` isn't called: it fails as [`Unread`] says, by `NoText` exactly where the words couldn't be
/// given for another reason than want of memory.
pub fn answer_args<F: FnOnce(&[&str]) -> u8 + Drop>(
    alloc: Global,
    args: io::Result<env::Args>,
    answer: F,
) -> Result<u8, Unread>
    requires { F.IsAlwaysCallable answer }
    ensures answered { IfOk result (λ status. MatchResult args
        (λ given. MayAnswer F.FnOnce answer (map string_bytes (into_iter_items given)) status) (λ error. ⊥)) }
    ensures no_text { (result ≡ Err NoText) ↔ MatchResult args (λ given. ⊥) (λ error. ¬ (error_kind error ≡ ErrorKind.OutOfMemory)) }
{
    let owned = read_args(alloc, args)?;
    match borrow_words(alloc, &owned) {
        Ok(words) => Ok(answer(&words)),
        Err(_) => Err(Unread::Memory),
    }
}

/// The words of the command line, all that are left of them: at first the program's own name is the first.
///
/// It fails by `NoText` exactly where the words couldn't be given for another reason than want of memory, and else for that.
/// `ulfm run` has two words: `ulfm`, or however the program was called, and `run`.
fn read_args(alloc: Global, args: io::Result<env::Args>) -> Result<Vec<String>, Unread>
    ensures words { IfOk result (λ owned. MatchResult args (λ given. owned.items ≡ into_iter_items given) (λ error. ⊥)) }
    ensures no_text { (result ≡ Err NoText) ↔ MatchResult args (λ given. ⊥) (λ error. ¬ (error_kind error ≡ ErrorKind.OutOfMemory)) }
{
    match args {
        Ok(args) => match args.collect(alloc) {
            Ok(owned) => Ok(owned),
            Err(_) => Err(Unread::Memory),
        },
        Err(error) if error.kind() == ErrorKind::OutOfMemory => Err(Unread::Memory),
        Err(_) => Err(Unread::NoText),
    }
}

/// The words as borrowed texts.
fn borrow_words(alloc: Global, owned: &Vec<String>) -> Result<Vec<&str>, AllocError>
    ensures { IfOk result (λ words. map (λ word. word.now) words.items ≡ map string_bytes owned.now.items) }
{
    owned.iter().map(|word| word.as_str()).collect(alloc)
}

/// Tells that the words of a command line couldn't be read, and gives the status: 3 for want of memory, and 2 where a word isn't UTF-8.
/// Faults of `errors` are passed over.
///
/// `Unread::NoText` is told as `ulfm: bad command line`, with a newline, and gives 2.
pub fn tell_unread<E: Write>(fault: Unread, errors: &mut E) -> u8
    ensures memory { fault ≡ OfMemory → result ≡ 3 }
    ensures no_text { fault ≡ NoText → result ≡ 2 }
    ensures told { TellsUnread fault (E.contents errors.old) (E.contents errors.new) }
{
    match fault {
        Unread::Memory => tell_fault(RunFault::Memory, errors),
        Unread::NoText => tell_bad_line(errors),
    }
}

/// Tells that a command line is bad, as `ulfm: bad command line` with a newline, and gives 2. Faults of `errors` are passed over.
pub fn tell_bad_line<E: Write>(errors: &mut E) -> u8
    ensures status { result ≡ 2 }
    ensures told { WritesPart (E.contents errors.old) (E.contents errors.new) bad_line }
{
    tell(b"ulfm: bad command line\n", errors);
    2
}
