//! The filters by the words that name them.
ghost use Rattle.std.specs.Prelude.{◌≡◌, IfSome, Some, drop, map};
ghost use Rattle.ulfm_filters.specs.declared.filter.Filter.{Filter as FilterOf};
ghost use Rattle.ulfm_filters.specs.Statuses.{Filtered};
ghost use Rattle.ulfm_quick.specs.Names.{IsBadCommand, words_of};

use std::alloc::Allocator;
use std::io::{Read, Write};
use ulfm_filters::{Filter, run_filter, tell_bad_line};

/// Does what the words of a command line ask for, the program's own name first: `run`, `run --echo`, `run --steps`, `migrate` or `check`,
/// with the program's bytes and status. Other words are told to be a bad command line.
pub fn answer<A: Allocator + Copy + Drop, R: Read, W: Write, E: Write>(
    alloc: A,
    words: &[&str],
    input: &mut R,
    output: &mut W,
    errors: &mut E,
) -> u8
    ensures filtered { (filter : FilterOf) → drop 1 (map (λ word. word.now) words.now) ≡ words_of filter
        → Filtered filter (R.remaining input.old) (R.remaining input.new) (W.contents output.old) (W.contents output.new) result }
    ensures other { ((filter : FilterOf) → ¬ (drop 1 (map (λ word. word.now) words.now) ≡ words_of filter))
        → IsBadCommand (R.remaining input.old) (R.remaining input.new) (W.contents output.old) (W.contents output.new) result }
{
    match named_filter(words) {
        Some(filter) => run_filter(alloc, filter, input, output, errors),
        None => tell_bad_line(errors),
    }
}

/// The filter that the words ask for, the program's own name first.
fn named_filter(words: &[&str]) -> Option<Filter>
    ensures some { IfSome result (λ filter. drop 1 (map (λ word. word.now) words.now) ≡ words_of filter) }
    ensures exact { (filter : FilterOf) → drop 1 (map (λ word. word.now) words.now) ≡ words_of filter → result ≡ Some filter }
{
    match words {
        [_, "run"] => Some(Filter::Calls),
        [_, "run", "--echo"] => Some(Filter::Echoed),
        [_, "run", "--steps"] => Some(Filter::Steps),
        [_, "migrate"] => Some(Filter::Migrate),
        [_, "check"] => Some(Filter::Check),
        _ => None,
    }
}
