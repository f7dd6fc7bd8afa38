//! What a round decided, as text.
ghost use Rattle.std.specs.Prelude.{◌≡◌, ◌++◌, OnOk};
ghost use Rattle.std.specs.Fmt.{decimal};
ghost use Rattle.ulfm_model.specs.Walked.{decision_of};
ghost use Rattle.ulfm_lines.specs.DecisionTexts.{body_text, outcome_text};

use itoa::Buffer;
use std::alloc::{AllocError, Allocator};
use ulfm_laws::{Body, FlagAnd};
use ulfm_model::decide::Decided;
use ulfm_script::print_flag;

/// Appends what was contributed, combined, how many ranks the decision names as failed, and whether it is raised. The last two arguments are
/// the words that stand before a flag and before a set of context ids. After an error nothing is said of the text.
///
/// With the words `flag ` and `ctx ` an agree on the flag 0000000f that leaves one rank out, raised, is told as
/// `flag 0000000f failed 1 raised`.
pub fn print_outcome<A: Allocator, B: Allocator>(
    text: &mut Vec<u8, A>,
    made: &Decided<FlagAnd, B>,
    flag: &[u8],
    ids: &[u8],
) -> Result<(), AllocError>
    ensures { OnOk result (text.new.items ≡ text.old.items ++ outcome_text flag.now ids.now (decision_of made.now)) }
{
    print_body(text, &made.body, flag, ids)?;
    text.extend_from_slice(b" failed ")?;
    print_count(text, made.failed.len())?;
    text.extend_from_slice(if made.raised { b" raised" } else { b" clean" })
}

/// Appends what was contributed, combined, behind these words.
fn print_body<A: Allocator>(
    text: &mut Vec<u8, A>,
    body: &Body<FlagAnd>,
    flag: &[u8],
    ids: &[u8],
) -> Result<(), AllocError>
    ensures { OnOk result (text.new.items ≡ text.old.items ++ body_text flag.now ids.now body.now) }
{
    match *body {
        Body::Unit => text.extend_from_slice(b"nobody"),
        Body::Clash => text.extend_from_slice(b"mismatch"),
        Body::Flag(value) => {
            text.extend_from_slice(flag)?;
            print_flag(text, value)
        }
        Body::Ctx(mask) => {
            text.extend_from_slice(ids)?;
            print_flag(text, FlagAnd { bits: mask.bits })
        }
    }
}

/// Appends a count in decimal. After an error nothing is said of the text.
pub fn print_count<A: Allocator>(text: &mut Vec<u8, A>, count: usize) -> Result<(), AllocError>
    ensures { OnOk result (text.new.items ≡ text.old.items ++ decimal count) }
{
    let mut buffer = Buffer::new();
    text.extend_from_slice(buffer.format(count).as_bytes())
}
