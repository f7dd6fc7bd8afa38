//! The lines of a step script.
ghost use Rattle.std.specs.Prelude.{◌≡◌, Ok, IfOk};
ghost use Rattle.ulfm_script.specs.Words.{rest_at};
ghost use Rattle.ulfm_lines.specs.StepLines.{ScriptStep, SpellsStep, read_asked, step_line_of, stepped_of};

use crate::step_name::read_step_name;
use ulfm_laws::FlagAnd;
use ulfm_model::StepLine;
use ulfm_script::words::{
    LAST_RANK, is_word, one_rank, read_number, read_number_to, split_word, two_words,
};
use ulfm_script::{LineKind, by_word, is_padded, read_call};

/// What one line of a step script asks for, without its newline, or the first fault in it from `verb` on.
///
/// A line is `call X`, where X is a line that [`read_call`] reads, other than `fail R`; `step R N`, `before R K`, `finish R` or
/// `fail R`: ranks R are 0 to 1023, counts N 1 to 9999, and K is the name of a step, as `settle`. The faults come in the order of
/// [`LineKind`], of `call X` first the verb of X. A `call` with nothing behind it, or an empty word, is `Words`.
pub fn read_step_line(line: &[u8]) -> Result<StepLine<FlagAnd>, LineKind>
    // What is read is spelled so, and what is spelled so is read.
    ensures found { IfOk result (λ step. SpellsStep line.now step) }
    ensures only { (step : ScriptStep) → SpellsStep line.now step → result ≡ Ok step }
    ensures exact { result ≡ step_line_of line.now }
{
    parse_step_line(line)
}

#[tactic(auto, unfolding(crate::specs::StepLines::step_line_of, crate::specs::StepLines::before_of))]
fn parse_step_line(line: &[u8]) -> Result<StepLine<FlagAnd>, LineKind>
    ensures { result ≡ step_line_of line.now }
{
    let (verb, fields) = split_word(line);
    by_word!(verb,
        b"call" => read_asked(fields),
        b"step" => read_stepped(fields),
        b"before" => {
            let (rank, name) = two_words(fields)?;
            let rank = read_number_to(LAST_RANK, rank)?;
            let name = read_step_name(name)?;
            Ok(StepLine::Before { rank, name })
        },
        b"finish" => {
            let rank = one_rank(fields)?;
            Ok(StepLine::Finished { rank })
        },
        b"fail" => {
            let rank = one_rank(fields)?;
            Ok(StepLine::Failed { rank })
        },
        else Err(LineKind::Verb)
    )
}

/// A call that a rank begins.
#[tactic(auto, unfolding(crate::specs::StepLines::read_asked))]
fn read_asked(fields: Option<&[u8]>) -> Result<StepLine<FlagAnd>, LineKind>
    ensures { result ≡ read_asked (rest_at fields.entry) }
{
    let Some(text) = fields else {
        return Err(LineKind::Words);
    };
    let (verb, _) = split_word(text);
    if verb.is_empty() {
        return Err(LineKind::Words);
    }
    if is_word(verb, b"fail") {
        return Err(LineKind::Verb);
    }
    let call = read_call(text)?;
    let padded = is_padded(text, &call);
    Ok(StepLine::Called { call, padded })
}

#[tactic(auto, unfolding(crate::specs::StepLines::stepped_of))]
fn read_stepped(fields: Option<&[u8]>) -> Result<StepLine<FlagAnd>, LineKind>
    ensures { result ≡ stepped_of (rest_at fields.entry) }
{
    let (rank, count) = two_words(fields)?;
    let rank = read_number_to(LAST_RANK, rank)?;
    let count = read_number(count)?;
    if count == 0 {
        return Err(LineKind::Number);
    }
    Ok(StepLine::Stepped { rank, count })
}
